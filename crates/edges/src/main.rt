// Runs the texts at the edges that no theorem covers, document 01's slips, and cases on which it is silent. For each it writes the
// text, its number, key and count, and, where it is accepted, its report.
#![tactic(auto)]

use std::io;
use std::io::Print;

// What marks a refusal where the report's length might stand.
const REFUSED: u32 = 1000000;

fn answer_of(text: &[u8]) -> u64 {
    let mut decode = [0u8; 4097];
    dock::nyimbrak_answer(text, &mut decode)
}

fn put_answer<R: Print>(rt: &R, a: u64) -> io::Result<()> {
    let number = a % 256;
    let key = a / 256 % 256;
    let count = a / 65536;
    println!(rt; "number {number} key {key} count {count}")
}

fn put_report<R: Print>(rt: &R, text: &[u8]) -> io::Result<()> {
    let mut decode = [0u8; 4097];
    let mut report = [0u8; 13795];
    let r = dock::nyimbrak_read(text, &mut decode, &mut report);
    if r < REFUSED {
        rt.write_all(byte::part(&report, 0, r as usize))?;
    }
    Ok(())
}

fn show<R: Print>(rt: &R, text: &[u8]) -> io::Result<()> {
    rt.write_all(text)?;
    rt.write_all(b"\n")?;
    put_answer(rt, answer_of(text))?;
    put_report(rt, text)?;
    rt.write_all(b"\n")
}

// The rows of "Texts at the edges" that are not marked P.
fn rows<R: Print>(rt: &R) -> io::Result<()> {
    show(rt, b"port=+5432,")?;
    show(rt, b"postgres://h/d?options=a@b")?;
    show(rt, b"postgres://h?x")?;
    show(rt, b"postgres://h:1%2C2")?;
    show(rt, b"hostaddr=::1,01.2.3.4")?;
    show(rt, b"keepalives=-1")
}

// "Slips to rule out", one text for each.
fn slips<R: Print>(rt: &R) -> io::Result<()> {
    show(rt, b"postgres://h/d@b")?;
    show(rt, b"postgres://a%2Cb")?;
    show(rt, b"user=a\\ b")?;
    show(rt, b"port=x user='a")?;
    show(rt, b"user=a\xC2\xA0dbname=b\xE3\x80\x80")?;
    show(rt, b"postgres://%%41")
}

// Key-value texts on which document 01 is silent.
fn pairs<R: Print>(rt: &R) -> io::Result<()> {
    show(rt, b"foo")?;
    show(rt, b"foo=")?;
    show(rt, b"foo 'a'")?;
    show(rt, b"foo=''")?;
    show(rt, b"user='a''b'")?;
    show(rt, b"user='a'=c")
}

// URIs on which it is silent.
fn uris<R: Print>(rt: &R) -> io::Result<()> {
    show(rt, b"postgres://a@b@c")?;
    show(rt, b"postgres://:@h")?;
    show(rt, b"postgres://[a,b]")?;
    show(rt, b"postgres://h?%FF")?;
    show(rt, b"postgres://h?%FF=a")?;
    show(rt, b"postgres://h?ho%73t=a")
}

// Values at the ends of their ranges.
fn values<R: Print>(rt: &R) -> io::Result<()> {
    show(rt, b"keepalives_retries=-0")?;
    show(rt, b"keepalives_idle=-0")?;
    show(rt, b"hostaddr=1:2:3:4:5:6:7::")?;
    show(rt, b"hostaddr=''")?;
    show(rt, b"port=,,,,,,,,,,,,,,,,")?;
    show(rt, b"user=\xFF")
}

// The limits: a text of 4,096 blanks, one of 4,097, and a decode buffer that is a byte too short.
fn limits<R: Print>(rt: &R) -> io::Result<()> {
    let full = [b' '; 4096];
    put_answer(rt, answer_of(&full))?;
    let long = [b' '; 4097];
    put_answer(rt, answer_of(&long))?;
    let mut decode = [0u8; 5];
    put_answer(rt, dock::nyimbrak_answer(b"user=a", &mut decode))
}

fn main(rt: HostRuntime) -> io::Result<()> {
    rows(&rt)?;
    slips(&rt)?;
    pairs(&rt)?;
    uris(&rt)?;
    values(&rt)?;
    limits(&rt)
}
