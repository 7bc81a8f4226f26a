// Texts that are refused at a place or taken, and the tokens, names and literals of a few.

use dae_base::{Items, Place};
use dae_lex::tokens;
use dae_rows::{bytes_of, source_of};
use dae_tree::{Constant, Keyword, LexError, Room, Sign, Token, TokenKind, Tokens};
use std::alloc::{AllocError, Global};
use std::process::Abort;

pub fn whole_room() -> Room {
    Room {
        tokens: 65_536,
        replacements: 65_536,
        literal_bytes: 65_536,
    }
}

/// Whether a text has just these tokens.
fn reads(alloc: Global, text: &[u8], expected: &[Token]) -> bool {
    if text.len() > 1_048_576 {
        return false;
    }
    match tokens(alloc, 0, text, &mut whole_room()) {
        Ok(read) => read.tokens() == expected,
        Err(_) => false,
    }
}

fn at(line: u32, col: u32) -> Place {
    Place { file: 0, line, col }
}

fn token(kind: TokenKind, start: u32, end: u32, place: Place) -> Token {
    Token {
        kind,
        start,
        end,
        place,
    }
}

/// Why a text has no tokens.
fn error_text(alloc: Global, error: LexError) -> Result<String, AllocError> {
    match error {
        LexError::BadByte(place) => {
            let (line, col) = (place.line, place.col);
            format!(in alloc; "BadByte {line} {col}")
        }
        LexError::TooManyTokens(place) => {
            let (line, col) = (place.line, place.col);
            format!(in alloc; "TooManyTokens {line} {col}")
        }
        LexError::Refused(construct, place) => {
            let (line, col) = (place.line, place.col);
            format!(in alloc; "{construct:?} {line} {col}")
        }
        LexError::Memory => String::from_str(alloc, "Memory"),
    }
}

/// How many tokens a text has, or why it has none, which leaves the room as it was.
fn reading_of(alloc: Global, text: &[u8], whole: Room) -> Result<String, AllocError> {
    if text.len() > 1_048_576 {
        return Ok(String::new(alloc));
    }
    let mut room = whole;
    match tokens(alloc, 0, text, &mut room) {
        Ok(read) => {
            let count = read.tokens().len();
            format!(in alloc; "{count}")
        }
        Err(error) if room == whole => error_text(alloc, error),
        Err(_) => String::from_str(alloc, "room"),
    }
}

/// What a text comes to in a room.
pub fn text_told(alloc: Global, text: &str, room: Room) -> Result<String, AllocError> {
    let text = source_of(alloc, text)?;
    reading_of(alloc, text.as_slice(), room)
}

/// What bytes in hexadecimal come to.
pub fn bytes_told(alloc: Global, text: &str) -> Result<String, AllocError> {
    let text = bytes_of(alloc, text)?;
    reading_of(alloc, text.as_slice(), whole_room())
}

fn add_lines(text: &mut Vec<u8>, lines: u32) -> Result<(), AllocError> {
    for _ in 0..lines {
        text.extend_from_slice(b"int a;\n")?;
    }
    Ok(())
}

/// What a file comes to with a function of ten tokens and so many lines of three.
pub fn lines_told(alloc: Global, lines: u32) -> Result<String, AllocError> {
    let mut text = Vec::from_slice(alloc, b"int main(void){return 0;}\n")?;
    add_lines(&mut text, lines)?;
    reading_of(alloc, text.as_slice(), whole_room())
}

#[test]
fn macro_tokens_have_the_span_of_the_name(rt: HostRuntime) {
    let here = at(2, 1);
    let tokens = [
        token(TokenKind::Name(0), 14, 15, here),
        token(TokenKind::Sign(Sign::Plus), 14, 15, here),
        token(TokenKind::Name(1), 14, 15, here),
    ];
    assert!(rt; reads(rt.alloc(), b"#define a a+b\na", &tokens));
}

#[test]
fn the_longest_token_counts(rt: HostRuntime) {
    let tokens = [
        token(TokenKind::Name(0), 0, 1, at(1, 1)),
        token(TokenKind::Sign(Sign::Increment), 1, 3, at(1, 2)),
        token(TokenKind::Sign(Sign::Increment), 3, 5, at(1, 4)),
        token(TokenKind::Sign(Sign::Plus), 5, 6, at(1, 6)),
        token(TokenKind::Name(1), 6, 7, at(1, 7)),
    ];
    assert!(rt; reads(rt.alloc(), b"x+++++y", &tokens));
}

#[test]
fn a_joined_token_has_its_first_place(rt: HostRuntime) {
    let tokens = [
        token(TokenKind::Keyword(Keyword::Int), 0, 3, at(1, 1)),
        token(TokenKind::Name(0), 4, 8, at(1, 5)),
        token(TokenKind::Sign(Sign::Semicolon), 8, 9, at(2, 2)),
    ];
    assert!(rt; reads(rt.alloc(), b"int a\\\nb;", &tokens));
}

fn int_constant(value: u32) -> TokenKind {
    TokenKind::Constant(Constant {
        value,
        unsigned: false,
    })
}

fn unsigned_constant(value: u32) -> TokenKind {
    TokenKind::Constant(Constant {
        value,
        unsigned: true,
    })
}

fn has_kinds(tokens: &[Token], kinds: &[TokenKind]) -> bool {
    if tokens.len() != kinds.len() {
        return false;
    }
    for (token, kind) in tokens.iter().zip(kinds) {
        if token.kind != *kind {
            return false;
        }
    }
    true
}

fn has_literal(literals: &[Items<u8>], expected: &[u8]) -> bool {
    match literals {
        [literal] => literal.as_slice() == expected,
        _ => false,
    }
}

/// Whether the first token has this spelling.
fn is_spelled(read: &Tokens, expected: &[u8]) -> bool {
    !read.tokens().is_empty() && read.spelling(0) == expected
}

fn check_reading(rt: &impl Abort, read: &Tokens) {
    let kinds = [
        TokenKind::Literal(0),
        int_constant(0),
        unsigned_constant(u32::MAX),
        int_constant(65),
    ];
    assert!(rt; has_kinds(read.tokens(), &kinds));
    assert!(rt; is_spelled(read, b"\"a\" s \"\\n\""));
    assert!(rt; has_literal(read.literals(), b"ab\n"));
    assert_eq!(rt; read.names().len(), 0);
    assert!(rt; read.headers().stdio && !read.headers().stdlib);
}

#[test]
fn names_literals_and_headers(rt: HostRuntime) {
    let text = b"#include <stdio.h>\n#define s \"b\"\n\"a\" s \"\\n\" NULL 0xFFFFFFFFu 'A'";
    let mut room = whole_room();
    match tokens(rt.alloc(), 7, text, &mut room) {
        Ok(read) => check_reading(&rt, &read),
        Err(_) => assert!(rt; false),
    }
    let left = Room {
        tokens: 65_530,
        replacements: 65_534,
        literal_bytes: 65_533,
    };
    assert!(rt; room == left);
}

pub const SMALL: Room = Room {
    tokens: 3,
    replacements: 2,
    literal_bytes: 2,
};
