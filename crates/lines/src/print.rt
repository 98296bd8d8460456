// Printing. A program lends the bytes where what is printed waits, text; text[..at] waits, and each function answers the next at.
ghost use Rattle.std.specs.Prelude.{◌≡◌, ◌<◌, ◌≤◌, [], ◌∷◌, length};
ghost use Rattle.io.specs.Digits.{hex_digit_ascii};
ghost use Rattle.lines.specs.Hex.{hex_of};
ghost use Rattle.lines.specs.Text.{line_most, Printed, Cleared, ok_tree, decimal_of, numbers_text, numbers_line, no_number, no_line};

// Standard output.
const STDOUT_FILENO: i32 = 1;

// As many bytes as a line may have: the hex of 32,768 bytes, a word, three numbers, and the line's end.
const LINE_MOST: usize = 65664;

// Writes what waits.
pub fn flush(text: &[u8], at: usize) {
    if at <= text.len() {
        io::write_all(STDOUT_FILENO, &text[..at]);
    }
}

// Where a line may be printed: what waits is written first if it leaves no room for the longest, so that no line is ever cut.
pub fn room_for_line(text: &[u8], at: usize) -> usize
    requires { line_most ≤ length text.now }
    ensures { Cleared text.now at result }
{
    if text.len() - LINE_MOST < at {
        flush(text, at);
        return 0;
    }
    at
}

// One byte more. Where the text is full it is written first.
fn put(text: &mut [u8], at: usize, x: u8) -> usize
    ensures { Printed (x ∷ []) text.old text.new at result }
{
    if at < text.len() {
        text[at] = x;
        return at + 1;
    }
    io::write_all(STDOUT_FILENO, text);
    io::write_all(STDOUT_FILENO, &[x]);
    0
}

// Bytes as they are.
pub fn print_word(text: &mut [u8], at: usize, word: &[u8]) -> usize
    ensures { Printed word.now text.old text.new at result }
{
    let mut k = at;
    for x in word {
        k = put(text, k, *x);
    }
    k
}

fn hex_digit(d: u8) -> u8
    requires { d < 16 }
    ensures { result ≡ hex_digit_ascii d }
{
    if d < 10 { b'0' + d } else { b'a' + (d - 10) }
}

// Two digits.
fn put_byte(text: &mut [u8], at: usize, x: u8) -> usize
    ensures { Printed (hex_of (x ∷ [])) text.old text.new at result }
{
    let k = put(text, at, hex_digit(x / 16));
    put(text, k, hex_digit(x % 16))
}

// Bytes in lower-case hex.
pub fn print_hex(text: &mut [u8], at: usize, bytes: &[u8]) -> usize
    ensures { Printed (hex_of bytes.now) text.old text.new at result }
{
    let mut k = at;
    for x in bytes {
        k = put_byte(text, k, *x);
    }
    k
}

// The start of an answer's outcome: `ok`, and a tree's bytes.
pub fn print_ok(text: &mut [u8], at: usize, tree: &[u8]) -> usize
    ensures { Printed (ok_tree tree.now) text.old text.new at result }
{
    let k = print_word(text, at, b"ok ");
    print_hex(text, k, tree)
}

// A number's decimal digits.
fn put_decimal(text: &mut [u8], at: usize, n: u64) -> usize
    ensures { Printed (decimal_of n) text.old text.new at result }
{
    let mut digits = [0u8; 20];
    let k = io::decimal(n, &mut digits);
    print_word(text, at, &digits[..k])
}

// A blank and a number.
fn print_number(text: &mut [u8], at: usize, n: usize) -> usize
    ensures { Printed (numbers_text (n ∷ [])) text.old text.new at result }
{
    let k = put(text, at, b' ');
    put_decimal(text, k, n as u64)
}

// The end of a line: each number, and the newline.
pub fn print_numbers(text: &mut [u8], at: usize, numbers: &[usize]) -> usize
    ensures { Printed (numbers_line numbers.now) text.old text.new at result }
{
    let mut k = at;
    for n in numbers {
        k = print_number(text, k, *n);
    }
    put(text, k, b'\n')
}

// The outcome of a form that was refused: `no`, and the refusal's number.
pub fn print_no(text: &mut [u8], at: usize, number: u8) -> usize
    ensures { Printed (no_number number) text.old text.new at result }
{
    let a = print_word(text, at, b"no");
    print_numbers(text, a, &[number as usize])
}

// The outcome of a line that is not an even count of lower-case hex digits.
pub fn print_no_line(text: &mut [u8], at: usize) -> usize
    ensures { Printed no_line text.old text.new at result }
{
    print_word(text, at, b"no line\n")
}
