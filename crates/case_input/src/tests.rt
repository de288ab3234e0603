// The calls as the stream has them, an input that ends early, and the limits.
use super::*;
use std::test::Fail;

fn room() -> Room {
    Room {
        bytes: [0; MOST_BYTES],
        queues: [0; MOST_QUEUES],
    }
}

// What the first item of these bytes is.
fn first<'a>(mut bytes: &[u8], room: &'a mut Room) -> io::Result<Option<Item<'a>>> {
    read_item(&mut bytes, room)
}

fn call<'a>(item: Option<Item<'a>>) -> Option<Call<'a>> {
    match item {
        Some(Item::Call(call)) => Some(call),
        _ => None,
    }
}

#[test]
fn one_item_after_another(rt: HostRuntime) -> Result<(), Fail> {
    let mut room = room();
    let mut input: &[u8] = b"CFT\x00\x00\x00\x02hiE";
    assert_eq!(rt; read_item(&mut input, &mut room)?, Some(Item::Case));
    assert_eq!(rt;
        read_item(&mut input, &mut room)?,
        Some(Item::Call(Call::Fresh))
    );
    let list = Call::List(&[b'h', b'i']);
    assert_eq!(rt; read_item(&mut input, &mut room)?, Some(Item::Call(list)));
    assert_eq!(rt; read_item(&mut input, &mut room)?, Some(Item::End));
    assert_eq!(rt; read_item(&mut input, &mut room)?, None);
    Ok(())
}

#[test]
fn calls_with_bytes(rt: HostRuntime) -> Result<(), Fail> {
    let mut room = room();
    let state = Call::State {
        bytes: &[7, 8],
        length: 258,
        mode: 3,
    };
    let bytes = b"S\x00\x00\x00\x02\x07\x08\x00\x00\x00\x00\x00\x00\x01\x02\x03";
    assert_eq!(rt; call(first(bytes, &mut room)?), Some(state));
    let load = Call::Load(&[9]);
    assert_eq!(rt;
        call(first(b"L\x00\x00\x00\x01\x09", &mut room)?),
        Some(load)
    );
    let poll = Call::Poll(&[]);
    assert_eq!(rt;
        call(first(b"P\x00\x00\x00\x00\x09", &mut room)?),
        Some(poll)
    );
    let compare = Call::Compare {
        first: &[1],
        second: &[2, 3],
    };
    let bytes = b"M\x00\x00\x00\x01\x00\x00\x00\x02\x01\x02\x03";
    assert_eq!(rt; call(first(bytes, &mut room)?), Some(compare));
    Ok(())
}

#[test]
fn calls_with_numbers(rt: HostRuntime) -> Result<(), Fail> {
    let mut room = room();
    let query = Call::Query {
        scale: 65538,
        queues: &[256, 1],
    };
    let bytes = b"Q\x00\x01\x00\x02\x00\x02\x00\x00\x01\x00\x00\x00\x00\x01";
    assert_eq!(rt; call(first(bytes, &mut room)?), Some(query));
    let write = Call::Write {
        size: 49152,
        start: 1,
    };
    let bytes = b"W\x00\x00\xc0\x00\x00\x00\x00\x00\x00\x00\x00\x01";
    assert_eq!(rt; call(first(bytes, &mut room)?), Some(write));
    Ok(())
}

// Numbers go on as zeros, runs of bytes do not.
#[test]
fn input_ends_early(rt: HostRuntime) -> Result<(), Fail> {
    let mut room = room();
    let write = Call::Write {
        size: 256,
        start: 0,
    };
    assert_eq!(rt; call(first(b"W\x00\x00\x01", &mut room)?), Some(write));
    let query = Call::Query {
        scale: 5,
        queues: &[16777216, 0],
    };
    assert_eq!(rt;
        call(first(b"Q\x00\x00\x00\x05\x00\x02\x01", &mut room)?),
        Some(query)
    );
    let state = Call::State {
        bytes: &[4],
        length: 0,
        mode: 0,
    };
    assert_eq!(rt;
        call(first(b"S\x00\x00\x00\x01\x04", &mut room)?),
        Some(state)
    );
    assert_eq!(rt; first(b"L\x00\x00\x00\x02\x04", &mut room)?, None);
    assert_eq!(rt; first(b"S\x00\x00\x00\x02\x04", &mut room)?, None);
    assert_eq!(rt;
        first(b"M\x00\x00\x00\x01\x00\x00\x00\x01\x04", &mut room)?,
        None
    );
    assert_eq!(rt; first(b"", &mut room)?, None);
    Ok(())
}

#[test]
fn past_the_limits(rt: HostRuntime) -> Result<(), Fail> {
    let mut room = room();
    let mut most = b"L\x00\x00\xa0\x00".chain(io::repeat(1));
    assert!(rt; read_item(&mut most, &mut room)?.is_some());
    let mut more = b"L\x00\x00\xa0\x01".chain(io::repeat(1));
    assert_eq!(rt; read_item(&mut more, &mut room)?, None);
    let mut pair = b"M\x00\x00\x90\x00\x00\x00\x10\x00".chain(io::repeat(1));
    assert!(rt; read_item(&mut pair, &mut room)?.is_some());
    let mut longer = b"M\x00\x00\x90\x00\x00\x00\x10\x01".chain(io::repeat(1));
    assert_eq!(rt; read_item(&mut longer, &mut room)?, None);
    assert!(rt; first(b"Q\x00\x00\x00\x00\x00\x40", &mut room)?.is_some());
    assert_eq!(rt; first(b"Q\x00\x00\x00\x00\x00\x41", &mut room)?, None);
    assert_eq!(rt; first(b"W\x00\x00\xc0\x01", &mut room)?, None);
    assert_eq!(rt; first(b"X", &mut room)?, None);
    Ok(())
}
