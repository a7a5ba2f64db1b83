//! Labels, and the other names of a text.
ghost use Rattle.std.specs.Prelude.{◌≡◌, ◌↔◌, IsTrue, IfSome, IsSome};
ghost use Rattle.std.specs.Str.{bytes_eq};
ghost use Rattle.std.specs.Cmp.{partial_equiv_from_equiv};
ghost use Rattle.std.specs.Cmp.Lexicographic.{nat_list_eq_equiv};
ghost use Rattle.std.specs.Cmp.Rules.{hashing};
ghost use Rattle.std.specs.Hash as fed;
ghost use Rattle.std.proofs.Common.{rules};
ghost use Rattle.venice_asm.specs.Label.{IsLabel};

use std::hash::{Hash, Hasher};
use std::marker::Model;
use ven_base::{NAME_LIMIT, is_name_token};

/// A name token of 1 to 31 bytes, whatever it spells. Labels are compared byte by byte.
#[derive(Clone, Copy)]
pub struct Label {
    bytes: [u8; 31],
    len: u8,
}

impl Model for Label {
    ghost use Rattle.std.specs.Prelude.{◌≡◌, List, ℕ, ◌-◌, length};
    ghost use Rattle.venice_asm.specs.Stored.{IsStored, stored_bytes, padded};

    ghost Value = { List ℕ };

    ghost view = { λ n. stored_bytes n.bytes n.len };

    ghost invariant = { λ n. IsStored n.bytes n.len };

    ghost inverse = { λ xs. record { bytes = padded xs; len = length xs } };

    ghost inverse_ok = { λ n h i. record {
      bytes = h.is_padded i;
      len = h.len_is i;
    } };
}

impl Label {
    /// The label with these bytes: `None` exactly where they are no name token, or more than 31.
    pub fn from_bytes(bytes: &[u8]) -> Option<Label>
        ensures found { IsSome result ↔ IsLabel bytes.now }
        ensures value { IfSome result (λ label. label ≡ bytes.now) }
    {
        if bytes.len() > NAME_LIMIT || !is_name_token(bytes) {
            return None;
        }
        let mut stored = [0; 31];
        stored[..bytes.len()].copy_from_slice(bytes);
        Some(Label {
            bytes: stored,
            len: bytes.len() as u8,
        })
    }

    /// The label's bytes, from 1 to 31.
    pub fn bytes(&self) -> &[u8]
        ensures value { result.now ≡ self.now }
        ensures is_label { IsLabel self.now }
    {
        &self.bytes[..self.len as usize]
    }
}

impl PartialEq for Label {
    ghost eq = { λ a b. bytes_eq a b };

    ghost laws = { partial_equiv_from_equiv nat_list_eq_equiv };

    fn eq(&self, other: &Label) -> bool {
        self.bytes() == other.bytes()
    }
}

impl Eq for Label {
    ghost laws = { nat_list_eq_equiv };
}

impl Hash for Label {
    ghost hash_input = { λ label. fed.slice fed.u8 label };

    ghost respects_eq = { Prim.search (hashing, rules) };

    fn hash<H: Hasher>(&self, state: &mut H) {
        self.bytes().hash(state);
    }
}
