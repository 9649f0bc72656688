// The points of document 01 and of the change requests that are run and compared. Standard input has them: a name, and a session
// that is played to a new tag. For each, a line says whether all of it came as expected. The published CRC examples come first.
#![tactic(auto)]

use image::peek;
use session::Reads;
use std::io::Stdout;

mod kept;
mod line;
mod lists;
mod session;

fn main(rt: HostRuntime) {
    let mut image = [0u8; 8832];
    let mut store = [0u8; 8832];
    let mut input = [0u8; 65536];
    let n = console::read_full(rt.stdin(), &mut input);
    crc_points(rt.stdout());
    run(rt.stdout(), &input[..n], &mut image, &mut store);
}

// The number engraved on source document 000's first page, the one of the makers' Application Note 27, and the digits 1 to 9.
fn crc_points(stdout: Stdout) {
    point(
        stdout,
        b"CRC-8 of 41 2B C5 FB 00 00 00 is A1",
        crc::crc8(0x000000FBC52B41) == 0xA1,
    );
    point(
        stdout,
        b"CRC-8 of 02 1C B8 01 00 00 00 is A2",
        crc::crc8(0x00000001B81C02) == 0xA2,
    );
    let digits = crc::crc16_run(0, b"123456789");
    point(
        stdout,
        b"CRC-16 of the digits 1 to 9 is BB3D",
        digits == 0xBB3D,
    );
    point(
        stdout,
        b"it is sent as C2 44",
        (crc::sent_low(digits) == 0xC2) & (crc::sent_high(digits) == 0x44),
    );
}

fn point(stdout: Stdout, name: &[u8], right: bool) {
    console::print(stdout, name);
    verdict(stdout, right);
}

fn verdict(stdout: Stdout, right: bool) {
    let words: &[u8] = if right { b": ok\n" } else { b": WRONG\n" };
    console::print(stdout, words);
}

// Plays the sessions, each to a new tag. A part is performed at its first character; the others are passed over.
fn run(stdout: Stdout, input: &[u8], image: &mut [u8], store: &mut [u8]) {
    let mut tag = record::fresh(0, 0);
    let mut right = line::begin(&mut tag, image);
    let mut any = false;
    let mut reads = Reads::Part;
    // By place: each turn takes the text from there on.
    for i in 0..input.len() {
        let text = &input[i..];
        let c = peek(text, 0);
        match reads {
            Reads::Name if c != b'\n' => {
                console::print(stdout, &[c]);
            }
            Reads::Part => {
                if c == b':' {
                    // Where a point begins, the one before is judged.
                    if any {
                        verdict(stdout, right);
                    }
                    any = true;
                    right = true;
                }
                right = line::perform(&mut tag, image, store, text) & right;
            }
            _ => {}
        }
        reads = session::after(reads, text);
    }
    if any {
        verdict(stdout, right);
    }
}
