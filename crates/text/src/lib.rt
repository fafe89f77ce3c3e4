// A line while it is built: bytes put one after another, in the line itself. Each method says which bytes it appends and how many they
// are at most; it asks for the room that it needs, so none has to refuse. `write!` is not used: the library says what it has written
// where it succeeds, and not that it does, and a line is to be exact on every value.
#![tactic(auto)]

ghost use Rattle.std.specs.Prelude.{ℕ, List, [], ◌∷◌, ◌≡◌, ◌+◌, ◌<◌, ◌≤◌, length, take};
ghost use Rattle.text.specs.Digits.{hex_digit, hex2};
ghost use Rattle.text.specs.Fields.{space, name_field};
ghost use Rattle.text.specs.Appends.{Appends};

use itoa::{Buffer, Integer};
use std::marker::Model;

const SPACE: u8 = b' ';

// At most ROOM bytes. A contract sees the bytes that were put into it.
#[derive(Drop)]
pub struct Line<const ROOM: usize> {
    bytes: [u8; ROOM],
    length: usize,
}

impl<const ROOM: usize> Model for Line<ROOM> {
    ghost Value = { List ℕ };

    ghost view = { λ line. take line.length line.bytes };

    ghost invariant = { λ line. line.length ≤ ROOM };
}

impl<const ROOM: usize> Line<ROOM> {
    // A line with nothing in it.
    pub fn new() -> Line<ROOM>
        ensures { result ≡ [] }
    {
        Line {
            bytes: [0; ROOM],
            length: 0,
        }
    }

    // What was put into it.
    pub fn as_bytes(&self) -> &[u8]
        ensures value { result.now ≡ self.now }
        ensures within { length result.now ≤ ROOM }
    {
        &self.bytes[..self.length]
    }

    // One byte.
    pub fn push(&mut self, byte: u8)
        requires { length self.old + 1 ≤ ROOM }
        ensures { Appends self.old self.new (byte ∷ []) 1 }
    {
        self.bytes[self.length] = byte;
        self.length += 1;
    }

    // Several bytes.
    pub fn push_all(&mut self, bytes: &[u8])
        requires { length self.old + length bytes.now ≤ ROOM }
        ensures { Appends self.old self.new bytes.now (length bytes.now) }
    {
        let end = self.length + bytes.len();
        let room = &mut self.bytes[..];
        room[self.length..end].copy_from_slice(bytes);
        self.length = end;
    }

    // A number in decimal, with a minus where it is below 0.
    pub fn push_number<N: Integer>(&mut self, n: N)
        requires { length self.old + N.MAX_STR_LEN ≤ ROOM }
        ensures { Appends self.old self.new (N.text n) N.MAX_STR_LEN }
    {
        let mut digits = Buffer::new();
        self.push_all(digits.format(n).as_bytes());
    }

    // The same after a space.
    pub fn push_field<N: Integer>(&mut self, n: N)
        requires { length self.old + (1 + N.MAX_STR_LEN) ≤ ROOM }
        ensures { Appends self.old self.new (space ∷ N.text n) (1 + N.MAX_STR_LEN) }
    {
        self.push(SPACE);
        self.push_number(n);
    }

    // A byte in two hexadecimal digits, after a space.
    #[tactic(auto, unfolding(crate::specs::Digits::hex2))]
    pub fn push_hex(&mut self, byte: u8)
        requires { length self.old + 3 ≤ ROOM }
        ensures { Appends self.old self.new (space ∷ hex2 byte) 3 }
    {
        self.push_all(&[SPACE, hex_digit(byte / 16), hex_digit(byte % 16)]);
    }

    // A name after a space, or nothing where it is empty. A size over 32, which no good record has, takes all cells. (The
    // size comes beside the cells, as the record has it.)
    pub fn push_name(&mut self, size: u8, cells: &[u8; 32])
        requires { length self.old + 33 ≤ ROOM }
        ensures { Appends self.old self.new (name_field (take size cells.now)) 33 }
    {
        if size == 0 {
            return;
        }
        self.push(SPACE);
        self.push_all(&cells[..(size as usize).min(32)]);
    }
}

// A digit below 16, in small letters. (`char::from_digit` is no plainer: it answers an `Option`, and of a char.)
fn hex_digit(d: u8) -> u8
    requires { d < 16 }
    ensures { result ≡ hex_digit d }
{
    if d < 10 { b'0' + d } else { b'a' + (d - 10) }
}
