// The tests of the goals of an H3 certificate's mode.
ghost use Rattle.std.specs.Prelude.{true, ◌||◌, not, ◌≡◌, ◌<◌, eqb};
ghost use Rattle.certificate.specs.Layout.{takes_turns, goal_number_of};
ghost use Rattle.certificate.specs.Records.{goals_safe, same_goals, goals_agree, is_used, no_gap, goals_ok};

use certificate::limits;
use mode_records::modes::Modes;
use road_records::links;

// The goals of mode m are at most safe.
fn goals_safe(modes: &Modes<'_>, m: usize) -> bool
    requires { (m < 256) × (takes_turns modes.now.bytes.now ≡ true) }
    ensures { result ≡ goals_safe modes.now.bytes.now m }
{
    let links = header_record::links_of(modes.bytes);
    (0..links).all(|l| modes.goal_for(m, l) <= links::safe_of(modes.bytes, l))
}

// Modes k and m have equal goals.
fn same_goals(modes: &Modes<'_>, k: usize, m: usize) -> bool
    requires { (k < 256) × (m < 256) × (takes_turns modes.now.bytes.now ≡ true) }
    ensures { result ≡ same_goals modes.now.bytes.now k m }
{
    let links = header_record::links_of(modes.bytes);
    (0..links).all(|l| modes.goal_for(k, l) == modes.goal_for(m, l))
}

// Mode m has the goals of mode k, if it has its goal number.
fn agrees_with(modes: &Modes<'_>, k: usize, m: usize) -> bool
    requires { (k < 256) × (m < 256) × (takes_turns modes.now.bytes.now ≡ true) }
    ensures { result ≡ (not (eqb (goal_number_of modes.now.bytes.now k) (goal_number_of modes.now.bytes.now m)) || same_goals modes.now.bytes.now k m) }
{
    (modes.goal_number(k) != modes.goal_number(m)) | same_goals(modes, k, m)
}

// Mode m agrees with every mode before it.
fn goals_agree(modes: &Modes<'_>, m: usize) -> bool
    requires { (m < 256) × (takes_turns modes.now.bytes.now ≡ true) }
    ensures { result ≡ goals_agree modes.now.bytes.now m }
{
    (0..m).all(|k| agrees_with(modes, k, m))
}

// Some mode has goal number n.
fn is_used(modes: &Modes<'_>, n: usize) -> bool
    requires { takes_turns modes.now.bytes.now ≡ true }
    ensures { result ≡ is_used modes.now.bytes.now n }
{
    (0..header_record::modes_of(modes.bytes)).any(|m| modes.goal_number(m) == n)
}

// Every number below the greatest is used.
fn no_gap(modes: &Modes<'_>) -> bool
    requires { takes_turns modes.now.bytes.now ≡ true }
    ensures { result ≡ no_gap modes.now.bytes.now }
{
    (0..modes.greatest_number()).all(|n| is_used(modes, n))
}

// The tests of the goals of mode m; the last mode answers for a gap.
pub fn goals_ok(modes: &Modes<'_>, m: usize) -> bool
    requires { (m < 256) × (takes_turns modes.now.bytes.now ≡ true) }
    ensures { result ≡ goals_ok modes.now.bytes.now m }
{
    (modes.goal_number(m) <= limits::MAX_GOAL_NUMBER)
        & goals_safe(modes, m)
        & goals_agree(modes, m)
        & ((m + 1 != header_record::modes_of(modes.bytes)) | no_gap(modes))
}
