// Standard input and standard output of the programs. What fails is said on standard error.
#![tactic(auto)]

ghost use Rattle.std.specs.Prelude.{◌≡◌, ◌^◌, ◌<◌, ◌≤◌, length};
ghost use Rattle.streams.specs.Input.{bytes_of};

use std::io::{Eprint, Input, Print, Read};

// Standard input, into the start of a buffer: how many bytes were read, up to the end of the input or of the buffer; none where the reading failed.
pub fn read_input<R: Input + Eprint>(rt: &R, buf: &mut [u8]) -> Option<usize>
    ensures { bytes_of result ≤ length buf.new }
{
    let mut source = rt.reader();
    let mut n = 0;
    while n < buf.len() {
        match source.read(&mut buf[n..]) {
            Ok(0) => break,
            Ok(more) => n += more,
            Err(e) => {
                let _ = eprintln!(rt; "cannot read the input: {e}");
                return None;
            }
        }
    }
    Some(n)
}

// Bytes to standard output.
pub fn write_output<R: Print + Eprint>(rt: &R, bytes: &[u8]) {
    if let Err(e) = Print::write_all(rt, bytes) {
        let _ = eprintln!(rt; "cannot write the answer: {e}");
    }
}

// A program: the answer, of at most ANSWER bytes, to what was read, of at most TEXT bytes.
pub fn answer_input<
    const TEXT: usize,
    const ANSWER: usize,
    R: Input + Print + Eprint,
    F: FnOnce(&[u8], &mut [u8]) -> usize,
>(rt: &R, answer: F)
    requires sizes { (TEXT < 2 ^ 63) × (ANSWER < 2 ^ 63) }
    requires asked { (text : _) (out : _) → length text.now ≤ TEXT → length out.now ≡ ANSWER → F.pre answer text out }
    requires fits { (text : _) (out : _) (r : _) (after : _) → F.post answer text out r after → length out.now ≡ ANSWER → r ≤ ANSWER }
{
    let mut text = [0; TEXT];
    if let Some(n) = read_input(rt, &mut text) {
        let mut out = [0; ANSWER];
        let r = answer(&text[..n], &mut out);
        write_output(rt, &out[..r]);
    }
}
