// The calls under test: each is made on what the stream gave, and its line of results is printed:
//   load NUMBER A B COUNT mode M length N, with ` overflow E` behind the count of an acceptance
//   query NUMBER A B COUNT signal S green G mode M
//   poll NUMBER A B COUNT signal S green G mode M
//   write NUMBER A B COUNT sum H
//   list NUMBER A B COUNT, then the text
//   compare NUMBER A B COUNT WORD, where WORD is equal, first, second, neither or refused
// H is the hash of the whole buffer after the call. All numbers are decimal.
use case_output::{Answer, buffer};
use comparing::answers;
use controller::{Controller, Shown};
use covering::Comparison;
use std::io;

pub fn load(rt: &impl Print, state: &mut Controller, bytes: &[u8]) -> io::Result<()> {
    let loaded = state.load(bytes);
    *state = loaded.state;
    let answer = Answer("load", loaded.report);
    let (mode, length) = (state.mode, state.len);
    if loaded.report.number == 0 {
        let overflows = loaded.overflows;
        println!(rt; "{answer} overflow {overflows} mode {mode} length {length}")
    } else {
        println!(rt; "{answer} mode {mode} length {length}")
    }
}

// A query or a poll. Not inlined: a load, which needs the most stack, is not to hold its copies of the state.
#[inline(never)]
pub fn look_up<F: FnOnce(Controller) -> Shown>(
    rt: &impl Print,
    call: &str,
    state: &mut Controller,
    ask: F,
) -> io::Result<()>
    requires { F.pre ask state.old }
{
    let shown = ask(*state);
    *state = shown.state;
    let answer = Answer(call, shown.report);
    let (signal, green, mode) = (shown.signal, shown.green, state.mode);
    println!(rt; "{answer} signal {signal} green {green} mode {mode}")
}

pub fn write(rt: &impl Print, state: &Controller, lent: &mut [u8], start: usize) -> io::Result<()> {
    buffer::prepare(lent);
    let answer = Answer("write", state.write(lent, start));
    let sum = buffer::hash(lent);
    println!(rt; "{answer} sum {sum}")
}

pub fn list(rt: &impl Print, bytes: &[u8], text: &mut [u8]) -> io::Result<()> {
    let report = listing::list(bytes, text);
    rt.println(Answer("list", report))?;
    rt.write_all(&text[..report.a as usize])
}

pub fn compare(rt: &impl Print, first: &[u8], second: &[u8]) -> io::Result<()> {
    let found = comparing::compare(first, second);
    let answer = Answer("compare", answers::report_of(found));
    let word = match found {
        Comparison::Equal => "equal",
        Comparison::First => "first",
        Comparison::Second => "second",
        Comparison::Neither => "neither",
        Comparison::Refused(_) => "refused",
    };
    println!(rt; "{answer} {word}")
}
