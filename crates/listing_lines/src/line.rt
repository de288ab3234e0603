// A line: numbers, each with the word before it, and a line feed.
ghost use Rattle.std.specs.Prelude.{◌≡◌, ◌≤◌, length};
ghost use Rattle.listing_lines.specs.Fields.{line_of};
ghost use Rattle.octets.specs.Bounds.{offset_bound};
ghost use Rattle.text.specs.Writing.{HasRoom, Writes};

use text::Writer;

// A word with its spaces, and the number after it.
#[derive(Clone, Copy)]
pub struct Field(pub &'static [u8], pub u32);

// Two functions of a slice, not two methods of a type that holds the fields: the borrow check does not cover a borrow of such a type yet.
pub fn line_length(fields: &[Field]) -> usize
    requires { length (line_of fields.now) ≤ offset_bound }
    ensures { result ≡ length (line_of fields.now) }
{
    let mut total = 0;
    for Field(word, number) in fields {
        total += word.len() + text::decimal_length(*number);
    }
    total + 1
}

pub fn put_line(writer: &mut Writer, fields: &[Field])
    requires { HasRoom writer.old (line_of fields.now) }
    ensures { Writes writer.old (line_of fields.now) writer.new }
{
    for Field(word, number) in fields {
        writer.put_word(word);
        writer.put_decimal(*number);
    }
    writer.put_word(b"\n");
}
