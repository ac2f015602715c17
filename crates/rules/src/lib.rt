// The Rattle types that several crates share. What they mean is defined in specs/; the laws of that are proved in proofs/.
// No function has a body here.
#![tactic(auto)]

// 02, request 5, "each of the 256 bytes gets just its class there, or `other`".
#[derive(Clone, Copy)]
pub enum Class {
    Letter,
    Digit,
    Underscore,
    Blank,
    Other,
}

// 01 "A mark is 1 to 5 bytes long": the first `len` bytes are the mark. No mark (comments turned off): `len` is 0.
#[derive(Clone, Copy)]
pub struct Mark {
    pub bytes: [u8; 5],
    pub len: u8,
}

// The four marks in force.
#[derive(Clone, Copy)]
pub struct Marks {
    pub begin_quote: Mark,
    pub end_quote: Mark,
    pub begin_comment: Mark,
    pub end_comment: Mark,
}

// 01 "There are five kinds of token": places count from the front of the text ahead, and the first byte behind is an `end`.
#[derive(Clone, Copy)]
pub enum Token {
    End,
    // Both marks belong to it.
    Comment {
        end: usize,
    },
    // The text between the outermost marks; the token with its marks ends at `end`.
    Quoted {
        text: usize,
        text_end: usize,
        end: usize,
    },
    Name {
        end: usize,
    },
    Byte(u8),
}

// What reading the text ahead gives: a token, or a quote or comment that does not close.
#[derive(Clone, Copy)]
pub enum Reading {
    Is(Token),
    // So many quotes are open at the end.
    OpenQuote(usize),
    OpenComment,
}

// A part of an expression of eval that was read: what it comes to, None for a zero divisor or a shift count outside 0 to 31, and the
// place behind it.
#[derive(Clone, Copy)]
pub struct Part {
    pub value: Option<i32>,
    pub end: usize,
}

// Why a whole expression has no value: it can't be read, or a zero divisor or a shift count outside 0 to 31 is worked out.
#[derive(Clone, Copy, PartialEq)]
pub enum EvalError {
    Unreadable,
    Divisor,
}

// - + ! ~
#[derive(Clone, Copy)]
pub enum Unary {
    Minus,
    Plus,
    Not,
    Complement,
}

// What an operand begins with, and the place behind that token (of a literal, its own place).
#[derive(Clone, Copy)]
pub enum Leading {
    Literal(usize),
    Parenthesis(usize),
    Sign(Unary, usize),
}

// The binary operators that work out both sides.
#[derive(Clone, Copy)]
pub enum Strict {
    Mul,
    Div,
    Rem,
    Add,
    Sub,
    Shl,
    Shr,
    Lt,
    Le,
    Gt,
    Ge,
    Eq,
    Ne,
    BitAnd,
    BitXor,
    BitOr,
}

// && || and the others.
#[derive(Clone, Copy)]
pub enum Binary {
    And,
    Or,
    Strict(Strict),
}

// A binary operator, how closely it binds (1 to 10, the closest) and the place behind it.
#[derive(Clone, Copy)]
pub struct Operator {
    pub op: Binary,
    pub level: u32,
    pub end: usize,
}

// How a run ends: a case for each row of 01's table of answers, with its detail where it has one.
#[derive(Clone, Copy)]
pub enum Answer {
    Done,
    Exit(u32),
    Lend,
    Spent,
    Room(u32),
    Unclosed(u32),
    Name,
    Number,
    Expression,
    Divisor,
    Mark,
    NoText,
    Gone,
    Deep,
    BadSet,
    NoItem,
    NoDefinition,
}

// What a call of the expander returns: with the answer's number and detail these are the six numbers of 01.
#[derive(Clone, Copy)]
pub struct Report {
    pub answer: Answer,
    pub steps: u32,
    pub place: u32,
    pub output: u32,
    pub errors: u32,
}

// 02, request 6: what the index of lines refuses.
#[derive(Clone, Copy)]
pub enum IndexError {
    TooLong,
    Beyond,
    NoLine,
    NoRoom,
}

// 02, request 4: a reading of a sheet, "a number as 01 has it, a decimal length or gain, or a word shaped like a name". A word has its place in the
// written text.
#[derive(Clone, Copy)]
pub enum Value {
    Number(i32),
    Decimal(f64),
    Word { place: usize, length: usize },
}

// A line of a sheet: the place and length of its name in the written text, and its reading.
#[derive(Clone, Copy)]
pub struct Entry {
    pub name: usize,
    pub length: usize,
    pub value: Value,
}

// 02 "A sheet is lines": the first `count` of them; at most 256, "22 a 257th line". It is 10 KB, so functions lend it to each other.
#[derive(Clone, Copy)]
pub struct Sheet {
    pub lines: [Entry; 256],
    pub count: usize,
}

// Why a text gives no sheet; a refusal of a line has the line's number.
#[derive(Clone, Copy)]
pub enum SheetError {
    Malformed(u32),
    Twice(u32),
    TooMany(u32),
    // The run did not end done; this is its answer.
    NotDone(Answer),
}

// What expanding and reading returns: the six numbers of 01, by the answer's number and detail, and the sheet.
#[derive(Clone, Copy)]
pub struct SheetReport {
    pub answer: Result<Sheet, SheetError>,
    pub steps: u32,
    pub place: u32,
    pub output: u32,
    pub errors: u32,
}
