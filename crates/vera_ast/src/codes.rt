//! The numbers of the kinds of tokens, by which the grammar speaks of them: the signs in the order of their table, then
//! names, number literals and strings, then the reserved words.

// Signs.
/// `{`
pub const LEFT_BRACE: u8 = 0;
/// `}`
pub const RIGHT_BRACE: u8 = 1;
/// `(`
pub const LEFT_PARENTHESIS: u8 = 2;
/// `)`
pub const RIGHT_PARENTHESIS: u8 = 3;
/// `[`
pub const LEFT_BRACKET: u8 = 4;
/// `]`
pub const RIGHT_BRACKET: u8 = 5;
/// `;`
pub const SEMICOLON: u8 = 6;
/// `,`
pub const COMMA: u8 = 7;
/// `.`
pub const DOT: u8 = 8;
/// `:`
pub const COLON: u8 = 9;
/// `?`
pub const QUESTION: u8 = 10;
/// `#`
pub const HASH: u8 = 11;
/// `@`
pub const AT: u8 = 12;
/// `@@`
pub const AT_AT: u8 = 13;
/// `@@@`
pub const AT_AT_AT: u8 = 14;
/// `=`
pub const EQUALS: u8 = 15;
/// `<=`
pub const LESS_EQUAL: u8 = 16;
/// `==`
pub const EQUAL: u8 = 17;
/// `!=`
pub const NOT_EQUAL: u8 = 18;
/// `===`
pub const CASE_EQUAL: u8 = 19;
/// `!==`
pub const CASE_NOT_EQUAL: u8 = 20;
/// `=?=`
pub const WILD_EQUAL: u8 = 21;
/// `!?=`
pub const WILD_NOT_EQUAL: u8 = 22;
/// `<`
pub const LESS: u8 = 23;
/// `>`
pub const GREATER: u8 = 24;
/// `>=`
pub const GREATER_EQUAL: u8 = 25;
/// `<<`
pub const SHIFT_LEFT: u8 = 26;
/// `>>`
pub const SHIFT_RIGHT: u8 = 27;
/// `+`
pub const PLUS: u8 = 28;
/// `-`
pub const MINUS: u8 = 29;
/// `*`
pub const STAR: u8 = 30;
/// `/`
pub const SLASH: u8 = 31;
/// `%`
pub const PERCENT: u8 = 32;
/// `!`
pub const NOT: u8 = 33;
/// `~`
pub const TILDE: u8 = 34;
/// `&`
pub const AND: u8 = 35;
/// `|`
pub const OR: u8 = 36;
/// `^`
pub const XOR: u8 = 37;
/// `~&`
pub const NAND: u8 = 38;
/// `~|`
pub const NOR: u8 = 39;
/// `~^`
pub const XNOR: u8 = 40;
/// `&&`
pub const AND_AND: u8 = 41;
/// `||`
pub const OR_OR: u8 = 42;
/// `+=`
pub const PLUS_EQUALS: u8 = 43;
/// `-=`
pub const MINUS_EQUALS: u8 = 44;
/// `++`
pub const PLUS_PLUS: u8 = 45;
/// `--`
pub const MINUS_MINUS: u8 = 46;
/// `->`
pub const ARROW: u8 = 47;

/// A word that isn't reserved.
pub const NAME: u8 = 48;
/// A number literal.
pub const NUMBER: u8 = 49;
/// A string.
pub const STRING_LITERAL: u8 = 50;
/// A sign that isn't in the table: no token of a source.
pub const NO_SIGN: u8 = 135;

/// The first reserved word's number; the others follow in the order of their list.
pub const FIRST_WORD: u8 = 51;
/// How many reserved words there are.
pub const WORD_COUNT: usize = 84;

// Items, classes and types.
pub const ENUM: u8 = 51;

pub const CLASS: u8 = 52;

pub const EXTENDS: u8 = 53;

pub const VIRTUAL: u8 = 54;

pub const TASK: u8 = 55;

pub const NEW: u8 = 56;

pub const FUNCTION: u8 = 57;

pub const VAR: u8 = 58;

pub const INTEGER: u8 = 59;

pub const BIT: u8 = 60;

pub const REG: u8 = 61;

pub const STRING: u8 = 62;

pub const EVENT: u8 = 63;

pub const PROGRAM: u8 = 64;

// Interfaces.
pub const INTERFACE: u8 = 65;

pub const INPUT: u8 = 66;

pub const OUTPUT: u8 = 67;

pub const CLOCK: u8 = 68;

pub const PHOLD: u8 = 69;

pub const PSAMPLE: u8 = 70;

pub const NHOLD: u8 = 71;

pub const NSAMPLE: u8 = 72;

// Coverage groups.
pub const COVERAGE_GROUP: u8 = 73;

pub const SAMPLE_EVENT: u8 = 74;

pub const SYNC: u8 = 75;

pub const ANY_MODE: u8 = 76;

pub const SAMPLE: u8 = 77;

pub const STATE: u8 = 78;

pub const BAD_STATE: u8 = 79;

pub const TRANS: u8 = 80;

pub const BAD_TRANS: u8 = 81;

// Statements.
pub const POSEDGE: u8 = 82;

pub const VOID: u8 = 83;

pub const IF: u8 = 84;

pub const ELSE: u8 = 85;

pub const WHILE: u8 = 86;

pub const REPEAT: u8 = 87;

pub const FOR: u8 = 88;

pub const CASE: u8 = 89;

pub const BREAK: u8 = 90;

pub const CONTINUE: u8 = 91;

pub const RETURN: u8 = 92;

pub const TERMINATE: u8 = 93;

pub const FORK: u8 = 94;

pub const JOIN: u8 = 95;

pub const ALL: u8 = 96;

pub const ANY: u8 = 97;

pub const NONE: u8 = 98;

pub const SOFT: u8 = 99;

pub const DEFAULT: u8 = 100;

// Values.
pub const NULL: u8 = 101;

pub const THIS: u8 = 102;

pub const SUPER: u8 = 103;

// Built-in calls, but `sync`.
pub const PRINTF: u8 = 104;

pub const SPRINTF: u8 = 105;

pub const EXIT: u8 = 106;

pub const FLAG: u8 = 107;

pub const GET_CYCLE: u8 = 108;

pub const ALLOC: u8 = 109;

pub const SEMAPHORE_GET: u8 = 110;

pub const SEMAPHORE_PUT: u8 = 111;

pub const MAILBOX_PUT: u8 = 112;

pub const MAILBOX_GET: u8 = 113;

pub const REGION_ENTER: u8 = 114;

pub const REGION_EXIT: u8 = 115;

pub const TRIGGER: u8 = 116;

pub const WAIT_CHILD: u8 = 117;

pub const WAIT_VAR: u8 = 118;

pub const CAST_ASSIGN: u8 = 119;

// Mode words, but `ANY`.
pub const WAIT: u8 = 120;

pub const NO_WAIT: u8 = 121;

pub const COPY_WAIT: u8 = 122;

pub const COPY_NO_WAIT: u8 = 123;

pub const SEMAPHORE: u8 = 124;

pub const MAILBOX: u8 = 125;

pub const REGION: u8 = 126;

pub const ALL_MODE: u8 = 127;

pub const ORDER: u8 = 128;

pub const CHECK: u8 = 129;

pub const ONE_SHOT: u8 = 130;

pub const ONE_BLAST: u8 = 131;

pub const HAND_SHAKE: u8 = 132;

pub const ON: u8 = 133;

pub const OFF: u8 = 134;
