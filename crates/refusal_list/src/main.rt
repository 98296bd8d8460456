// Prints each refusal's number and, in the words of documents 01 and 02, when it is given.
#![tactic(auto)]

use refusals::Refusal;

// Each refusal of 01 and of the requests for text and reports, with the words for it. (Kept from being Display: nothing new may be assumed,
// and println! reaches two C functions that io::write_all does not.)
const LINES: [(Refusal, &[u8]); 17] = [
    (Refusal::RoomSmall, b"lent working room too small"),
    (Refusal::FormLong, b"form over 8,192 bytes"),
    (Refusal::EndsEarly, b"form ends early; the empty form too"),
    (Refusal::BadPrefix, b"prefix not carried: fc, fd or fe"),
    (Refusal::AtomLong, b"atom over 64 bytes"),
    (Refusal::BytesAfter, b"bytes after the form"),
    (Refusal::UnitsOut, b"units run out"),
    (Refusal::Fails, b"evaluation fails"),
    (
        Refusal::NoOperator,
        b"evaluation meets an operator not carried, or an operator that is a pair",
    ),
    (Refusal::StepsOut, b"a 4,097th evaluation step"),
    (
        Refusal::PathLong,
        b"the path rule's result needs over 64 bytes",
    ),
    (Refusal::PassesOut, b"a 65,537th pass"),
    (Refusal::TooDeep, b"a driver call at nesting 65"),
    (Refusal::OutputShort, b"result longer than the output"),
    (Refusal::NoParse, b"text that does not parse"),
    (Refusal::TextLong, b"text over 32,768 bytes"),
    (Refusal::ReportFull, b"a 4,097th form of a report"),
];

// One line: the number and the words.
fn line(r: Refusal, words: &[u8]) {
    io::print_decimal(1, refusals::number_of(r) as u64);
    io::write_all(1, b" ");
    io::write_all(1, words);
    io::write_all(1, b"\n");
}

fn main() {
    for (r, words) in LINES {
        line(r, words);
    }
}
