//! The hash of a path, piece by piece.

ghost use Rattle.std.specs.Prelude.{◌≡◌, ◌*◌, ◌≤◌, [], ◌∷◌, drop, length};
ghost use Rattle.std.specs.Option.{option_map};
ghost use Rattle.odr_names.specs.Innermost.{own_bytes};
ghost use Rattle.odr_names.specs.Pieces.{own_seen, piece_seen};
ghost use Rattle.type_names.specs.Start.{hash_byte, hash_from, piece_bytes, text_bytes};

use crate::piece::{PieceRef, Private};
use ds_base::bytes_from;

/// What was hashed so far is multiplied by this with each byte.
const FACTOR: u64 = 0x9e3779b97f4a7c15;

/// The same with two bytes.
const SQUARE: u64 = FACTOR.wrapping_mul(FACTOR);

/// The same with three.
const CUBE: u64 = SQUARE.wrapping_mul(FACTOR);

/// The same with four.
const FOURTH: u64 = SQUARE.wrapping_mul(SQUARE);

/// The hash of what was hashed so far and a piece.
pub(crate) fn hash_piece(hash: u64, piece: &PieceRef) -> u64
    ensures { result ≡ hash_from hash (piece_bytes (piece_seen piece.now)) }
{
    let hash = hash_each(hash, &piece.parts.tag.to_le_bytes());
    let hash = hash_text(hash, piece.parts.name);
    let hash = hash_text(hash, piece.parts.linkage);
    let hash = hash_text(hash, piece.parts.spelled);
    hash_bytes(hash, &piece.ordinal.to_le_bytes())
}

/// The hash of what was hashed so far, and of an object and an entry, if there are these.
pub(crate) fn hash_private(hash: u64, own: Option<Private>) -> u64
    ensures { result ≡ hash_from hash (own_bytes (option_map own_seen own)) }
{
    match own {
        Some(own) => {
            let hash = hash_each(hash, &own.object.to_le_bytes());
            hash_each(hash, &own.entry.to_le_bytes())
        }
        None => hash,
    }
}

/// The hash of what was hashed so far, a text, and a zero byte.
#[tactic(auto, using(crate::proofs::Hashes::hash_more))]
fn hash_text(hash: u64, text: Option<&[u8]>) -> u64
    ensures { result ≡ hash_from hash (text_bytes (option_map (λ text. text.now) text.entry)) }
{
    match text {
        Some(text) => hash_each(hash_bytes(hash, text), &[0]),
        None => hash_each(hash, &[0]),
    }
}

/// The hash of what was hashed so far and some bytes.
fn hash_bytes(hash: u64, bytes: &[u8]) -> u64
    ensures { result ≡ hash_from hash bytes.now }
{
    let fours = bytes.len() / 4;
    let hash = hash_fours(hash, bytes, fours);
    hash_each(hash, bytes_from(bytes, 4 * fours))
}

/// The hash of what was hashed so far and so many times four bytes. What is left makes of it the hash of all.
fn hash_fours(hash: u64, bytes: &[u8], fours: usize) -> u64
    requires { 4 * fours ≤ length bytes.now }
    ensures { hash_from result (drop (4 * fours) bytes.now) ≡ hash_from hash bytes.now }
{
    let mut state = hash;
    for i in 0..fours {
        let at = 4 * i;
        let (a, b) = (bytes[at], bytes[at + 1]);
        let (c, d) = (bytes[at + 2], bytes[at + 3]);
        state = hash_four(state, a, b, c, d);
    }
    state
}

/// The hash of what was hashed so far and four bytes. Its products don't wait for one another, as those of byte after byte.
#[tactic(auto, using(crate::proofs::FourBytes::four_at_once))]
fn hash_four(hash: u64, a: u8, b: u8, c: u8, d: u8) -> u64
    ensures { result ≡ hash_from hash (a ∷ b ∷ c ∷ d ∷ []) }
{
    let high = u64::from(a)
        .wrapping_mul(FOURTH)
        .wrapping_add(u64::from(b).wrapping_mul(CUBE));
    let low = u64::from(c)
        .wrapping_mul(SQUARE)
        .wrapping_add(u64::from(d).wrapping_mul(FACTOR));
    hash.wrapping_mul(FOURTH)
        .wrapping_add(high.wrapping_add(low))
}

/// The hash of what was hashed so far and bytes, one after the other.
#[tactic(auto, unfolding(type_names::specs::Start::hash_from))]
fn hash_each(hash: u64, bytes: &[u8]) -> u64
    ensures { result ≡ hash_from hash bytes.now }
{
    let mut state = hash;
    for byte in bytes {
        state = hash_byte(state, *byte);
    }
    state
}

/// The hash of what was hashed so far and a byte.
fn hash_byte(hash: u64, byte: u8) -> u64
    ensures { result ≡ hash_byte hash byte }
{
    hash.wrapping_add(u64::from(byte)).wrapping_mul(FACTOR)
}
