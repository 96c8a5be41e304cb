//! Lines are read, however long they are, into little room.
use std::io;
use std::io::{BufRead, ErrorKind};

// The most bytes that are kept of a word, but for two; longer than the longest path that the system takes. A key or
// body of so many is too long, however it is written.
const WORD_MAX: usize = 8_192;

// The most bytes that are kept of a line: more than a command has whose words have so many. What has more is none.
const LINE_MAX: usize = 65_535;

fn is_hexadecimal(byte: &u8) -> bool {
    byte.is_ascii_digit() || (b'a' <= *byte && *byte <= b'f')
}

// Whether a word that begins with this byte may have these two behind that, and more.
fn may_have(first: u8, pair: &[u8]) -> bool {
    if first == b':' {
        pair.iter().all(is_hexadecimal)
    } else {
        pair.iter().all(u8::is_ascii_graphic)
    }
}

// Whether the line, whose last word has so many bytes, is as good without the last two of them: the word has more than
// enough before them.
fn can_be_cut(line: &[u8], word: usize) -> bool {
    if word != WORD_MAX + 2 || line.len() < word {
        return false;
    }
    let end = line.len() - 2;
    may_have(line[line.len() - word], &line[end..])
}

// Keeps a byte behind those of the line, or leaves it out where the line is as good without it. How many bytes of its
// last word are kept then; so many were before.
fn keep(line: &mut Vec<u8>, word: usize, byte: u8) -> io::Result<usize> {
    if line.len() >= LINE_MAX {
        return Ok(word);
    }
    line.push(byte)?;
    let word = if byte == b' ' {
        0
    } else {
        word.saturating_add(1)
    };
    if can_be_cut(line.as_slice(), word) {
        let length = line.len().saturating_sub(2);
        line.truncate(length);
        return Ok(WORD_MAX);
    }
    Ok(word)
}

// What a piece of the input gave.
#[derive(Clone, Copy)]
struct Piece {
    // How many of its bytes belong to the line, its line feed with them.
    count: usize,
    // Whether the line ends with them.
    is_whole: bool,
    // How many bytes of the line's last word are kept.
    word: usize,
}

// Keeps bytes up to the end of the line.
fn keep_all(line: &mut Vec<u8>, word: usize, bytes: &[u8]) -> io::Result<Piece> {
    let mut piece = Piece {
        count: 0,
        is_whole: false,
        word,
    };
    for byte in bytes {
        piece.count = piece.count.saturating_add(1);
        if *byte == b'\n' {
            piece.is_whole = true;
            return Ok(piece);
        }
        piece.word = keep(line, piece.word, *byte)?;
    }
    Ok(piece)
}

// Keeps the next piece of the input, which is used up.
fn read_piece<I: BufRead>(input: &mut I, line: &mut Vec<u8>, word: usize) -> io::Result<Piece> {
    let bytes = input.fill_buf()?;
    let piece = keep_all(line, word, bytes)?;
    input.consume(piece.count);
    Ok(piece)
}

/// Reads the next line, without the line feed that ends it, and tells whether there was one. What is kept of it is as
/// good or bad a command as the line is, and does the same; it has fewer than 65,536 bytes. (That is only tested.)
pub(crate) fn read_line<I: BufRead>(input: &mut I, line: &mut Vec<u8>) -> io::Result<bool> {
    line.clear();
    let mut word = 0;
    let mut has_any = false;
    for _ in 0..u64::MAX {
        let piece = match read_piece(input, line, word) {
            Ok(piece) => piece,
            Err(error) if error.kind() == ErrorKind::Interrupted => continue,
            Err(error) => return Err(error),
        };
        word = piece.word;
        has_any = has_any || piece.count > 0;
        if piece.is_whole || piece.count == 0 {
            break;
        }
    }
    Ok(has_any)
}
