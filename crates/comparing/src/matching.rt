// The pairs of cell and mode that one certificate lists, in the other: one walk through both tables, whose pairs ascend.
ghost use Rattle.std.specs.Prelude.{◌≡◌, ◌≤◌};
ghost use Rattle.certificate.specs.Loops.{every};
ghost use Rattle.certificate.specs.Layout.{max_entries, entries_of};
ghost use Rattle.covering.specs.Covering.{is_matched};
ghost use Rattle.comparing.specs.Walk.{key_of, KeysBelow, AtOrAbove, is_matched_by};

use reading::Certificate;

// The pair of entry e as one number, cell × 256 + mode.
fn key_of(certificate: &Certificate<'_>, e: usize) -> usize
    requires { e ≤ max_entries }
    ensures { result ≡ key_of certificate.now.bytes.now e }
{
    certificate.cell_of(e) * 256 + certificate.mode_of(e)
}

// The first entry with a key at or above this one, where no entry before e has one.
fn first_at(certificate: &Certificate<'_>, e: usize, key: usize) -> usize
    requires { (e ≤ entries_of certificate.now.bytes.now) × KeysBelow certificate.now.bytes.now e key }
    ensures { AtOrAbove certificate.now.bytes.now key result }
{
    let all = certificate.layout.entries;
    for k in e..all {
        if key <= key_of(certificate, k) {
            return k;
        }
    }
    all
}

// Entry e of s is there and has the pair of entry f of t, with a rank no higher.
fn matched_by(s: &Certificate<'_>, e: usize, t: &Certificate<'_>, f: usize) -> bool
    requires { (e ≤ max_entries) × (f ≤ max_entries) }
    ensures { result ≡ is_matched_by s.now.bytes.now t.now.bytes.now e f }
{
    e < s.layout.entries && key_of(s, e) == key_of(t, f) && s.rank_of(e) <= t.rank_of(f)
}

// Every pair that t lists is listed in s with a rank no higher.
pub fn all_matched(s: &Certificate<'_>, t: &Certificate<'_>) -> bool
    ensures { result ≡ every (entries_of t.now.bytes.now) (is_matched s.now.bytes.now t.now.bytes.now) }
{
    let mut e = 0;
    for f in 0..t.layout.entries {
        e = first_at(s, e, key_of(t, f));
        if !matched_by(s, e, t, f) {
            return false;
        }
    }
    true
}
