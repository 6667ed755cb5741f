ghost use Rattle.std.specs.Prelude.{◌≡◌, ◌<◌, ◌≤◌, true, false, length, Some, IfSome, IfNone};
ghost use Rattle.word_model.specs.Names.{is_name};
ghost use Rattle.std.specs.Ordering.{nat_cmp};
ghost use Rattle.std.specs.Str.{bytes_eq};
ghost use Rattle.std.specs.Hash as hashed;
ghost use Rattle.std.specs.Cmp.{partial_equiv_from_equiv};
ghost use Rattle.std.specs.Cmp.Lexicographic.{slice_cmp, nat_list_eq_equiv, nat_list_cmp_total, texts_ties, texts_po};
ghost use Rattle.std.proofs.Common.{refl, ap};
ghost use Rattle.std.proofs.lemmas.Slice.Eq.{bytes_eq-Decides};

use std::cmp::Ordering;
use std::hash::{Hash, Hasher};
use std::marker::Model;
use word_model::is_name;

/// The most bytes that a name has.
const LONGEST: usize = 32;

/// A name of 1 to 32 bytes: a letter, then letters, digits, `_` or `-`. A contract sees it as its bytes.
#[derive(Clone, Copy, Debug)]
pub struct Name {
    // The bytes after the name are zero, so that two equal names are the same value.
    bytes: [u8; LONGEST],
    len: u8,
}

impl Model for Name {
    ghost use Rattle.std.specs.Prelude.{◌≡◌, ◌-◌, ◌<◌, ◌≤◌, ◌++◌, ℕ, List, length, take, replicate, true};
    ghost use Rattle.word_model.specs.Names.{is_name};

    ghost Value = { List ℕ };

    ghost view = { λ name. take name.len name.bytes };

    ghost invariant = { λ name. (length name.bytes ≡ 32) × (0 < name.len) × (name.len ≤ 32)
        × (name.bytes ≡ take name.len name.bytes ++ replicate (32 - name.len) 0)
        × (is_name (take name.len name.bytes) ≡ true) };

    ghost inverse = { λ text. record {
      bytes = text ++ replicate (32 - length text) 0;
      len = length text;
    } };
}

impl Name {
    /// Returns the word as a name, or `None` exactly if it isn't one.
    pub fn read(word: &[u8]) -> Option<Name>
        ensures some { IfSome result (λ name. name ≡ word.now) }
        ensures named { IfSome result (λ _. is_name word.now ≡ true) }
        ensures none { IfNone result (is_name word.now ≡ false) }
    {
        if !is_name(word) {
            return None;
        }
        let mut bytes = [0; LONGEST];
        bytes[..word.len()].copy_from_slice(word);
        Some(Name {
            bytes,
            len: word.len() as u8,
        })
    }

    /// Returns the bytes of the name.
    pub fn bytes(&self) -> &[u8]
        ensures value { result.now ≡ self.now }
        ensures named { is_name self.now ≡ true }
        ensures some { 0 < length self.now }
        ensures within { length self.now ≤ 32 }
    {
        &self.bytes[..self.len as usize]
    }
}

impl PartialEq for Name {
    ghost eq = { bytes_eq };

    ghost laws = { partial_equiv_from_equiv nat_list_eq_equiv };

    fn eq(&self, other: &Self) -> bool {
        self.bytes() == other.bytes()
    }
}

impl Eq for Name {
    ghost laws = { nat_list_eq_equiv };
}

impl PartialOrd for Name {
    ghost partial_cmp = { λ a b. Some (slice_cmp nat_cmp a b) };

    ghost laws = { texts_po };

    fn partial_cmp(&self, other: &Self) -> Option<Ordering> {
        Some(self.cmp(other))
    }
}

impl Ord for Name {
    ghost cmp = { slice_cmp nat_cmp };

    ghost total = { nat_list_cmp_total };

    ghost matches_partial_cmp = { λ _ _. refl };

    ghost matches_eq = { texts_ties };

    fn cmp(&self, other: &Self) -> Ordering {
        self.bytes().cmp(other.bytes())
    }
}

impl Hash for Name {
    ghost hash_input = { hashed.slice hashed.u8 };

    ghost respects_eq = { λ a b same. ap (hashed.slice hashed.u8) ((bytes_eq-Decides a b).0 same) };

    fn hash<H: Hasher>(&self, state: &mut H) {
        self.bytes().hash(state);
    }
}
