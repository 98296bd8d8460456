// Tokens of a text, one at a time.
ghost use Rattle.std.specs.Prelude.{◌≡◌, false, ◌≤◌, ◌<◌, length, get_or};
ghost use Rattle.notation.specs.Grammar.{kind_of};
ghost use Rattle.notation.specs.declared.Kind.TheVariants.{Quotes};
ghost use Rattle.notation.specs.Faults.{first_place};
ghost use Rattle.text_reader.specs.Tokens.{is_plain, is_blank, spots_at, TokenOk, Skipped, WordEnds, ClosedOk, Whole};

use notation::Kind;

// The next token: where it stands, and where what follows it begins.
#[derive(Clone, Copy)]
pub(crate) enum Token {
    End,
    Open(usize),
    Close(usize),
    Dot(usize),
    Word(usize, usize),
    Quoted(usize, usize),
    Wrong(usize),
}

#[tactic(auto, unfolding(notation::specs::Grammar::kind_of))]
fn kind_of(c: u8) -> Kind
    ensures { result ≡ kind_of c }
{
    match c {
        b' ' | b'\t' | b'\n' | b'\r' => Kind::Blank,
        b'(' => Kind::Opens,
        b')' => Kind::Closes,
        b'"' => Kind::Quotes,
        _ => Kind::Plain,
    }
}

// Whether a byte belongs to a word.
#[tactic(auto, unfolding(crate::specs::Tokens::is_plain))]
fn is_plain(c: u8) -> bool
    ensures { result ≡ is_plain (kind_of c) }
{
    matches!(kind_of(c), Kind::Plain)
}

// Whether a byte only separates.
#[tactic(auto, unfolding(crate::specs::Tokens::is_blank))]
fn is_blank(c: u8) -> bool
    ensures { result ≡ is_blank (kind_of c) }
{
    matches!(kind_of(c), Kind::Blank)
}

// Where the first byte that does not separate stands, from at on.
fn skip(text: &[u8], at: usize) -> usize
    requires { at ≤ length text.now }
    ensures { Skipped text.now at result }
{
    for i in at..text.len() {
        if !is_blank(text[i]) {
            return i;
        }
    }
    text.len()
}

// Where a word ends that goes on at at.
fn word_end(text: &[u8], at: usize) -> usize
    requires { at ≤ length text.now }
    ensures { WordEnds text.now at result }
{
    for i in at..text.len() {
        if !is_plain(text[i]) {
            return i;
        }
    }
    text.len()
}

// Where the quote is closed that opens at `quote`; or the place of what is wrong: a byte that may not stand in quotes, or the quote itself
// where it is never closed.
fn quote_end(text: &[u8], quote: usize) -> Result<usize, usize>
    requires { quote < length text.now }
    ensures { ClosedOk text.now quote result }
{
    for i in quote + 1..text.len() {
        match text[i] {
            b'"' => {
                return Ok(i);
            }
            b' '..=b'~' => {}
            _ => {
                return Err(i);
            }
        }
    }
    Err(quote)
}

// The word from at to end; a dot alone is no word.
fn word_from(text: &[u8], at: usize, end: usize) -> Token
    requires { Whole text.now at end }
    ensures { TokenOk text.now at result }
{
    if end - at == 1 && text[at] == b'.' {
        return Token::Dot(end);
    }
    Token::Word(at, end)
}

// What the quote that opens at at begins.
fn quoted_from(text: &[u8], at: usize) -> Token
    requires { (at < length text.now) × (kind_of (get_or text.now at 0) ≡ Quotes) }
    ensures { TokenOk text.now at result }
{
    match quote_end(text, at) {
        Ok(end) => Token::Quoted(at + 1, end),
        Err(i) => Token::Wrong(i),
    }
}

// The token that begins at at, where no separator stands.
fn token_here(text: &[u8], at: usize) -> Token
    requires { (at < length text.now) × (is_blank (kind_of (get_or text.now at 0)) ≡ false) }
    ensures { TokenOk text.now at result }
{
    match kind_of(text[at]) {
        Kind::Opens => Token::Open(at + 1),
        Kind::Closes => Token::Close(at + 1),
        Kind::Quotes => quoted_from(text, at),
        Kind::Plain => word_from(text, at, word_end(text, at + 1)),
        Kind::Blank => Token::Wrong(at),
    }
}

// The next token from at on.
pub(crate) fn next_token(text: &[u8], at: usize) -> Token
    requires { at ≤ length text.now }
    ensures { TokenOk text.now at result }
{
    let i = skip(text, at);
    if i < text.len() {
        token_here(text, i)
    } else {
        Token::End
    }
}

// Where the next token from at on begins, or the text's end.
pub(crate) fn next_place(text: &[u8], at: usize) -> usize
    requires { at ≤ length text.now }
    ensures { result ≡ first_place (spots_at text.now at) (length text.now) }
{
    match next_token(text, at) {
        Token::Open(next) | Token::Close(next) | Token::Dot(next) => next - 1,
        Token::Word(from, _) => from,
        Token::Quoted(from, _) => from - 1,
        Token::Wrong(i) => i,
        Token::End => text.len(),
    }
}
