//! What texts feed a hasher.
//!
//! The hasher of a map has no secret. Many long texts that it cannot tell apart are easily made, and a module or an article
//! may hold them; of short ones there are few. So a long text is fed as one number, which SipHash gives.

ghost use Rattle.std.specs.Prelude.{◌≡◌};
ghost use Rattle.std.specs.List.{fold};
ghost use Rattle.jats_chars.specs.Hashing as spec;

use crate::Name;
use indexmap::Equivalent;
use std::hash::{DefaultHasher, Hash, Hasher};

/// How many characters a text has at most that is fed as it is.
const FED_WHOLE: usize = 16;

/// The number that SipHash-1-3, with both keys 0, gives for these characters.
fn digest(cs: &[char]) -> u64
    ensures { result ≡ spec.digest cs.now }
{
    let mut hasher = DefaultHasher::new();
    cs.hash(&mut hasher);
    hasher.finish()
}

/// Feeds these characters: as they are where they are at most 16, else the number that SipHash gives for them.
pub(crate) fn feed<H: Hasher>(cs: &[char], state: &mut H)
    ensures { state.new ≡ fold H.write state.old (spec.fed_text cs.now) }
{
    if cs.len() <= FED_WHOLE {
        cs.hash(state);
    } else {
        state.write_u64(digest(cs));
    }
}

/// A name as it stands in a text, by which a map is asked whose keys are names. It feeds a hasher what such a name does.
#[derive(Clone, Copy, Debug, PartialEq, Eq)]
pub struct Spelled<'a> {
    pub name: &'a [char],
}

impl Hash for Spelled<'_> {
    ghost use Rattle.std.proofs.Common.{ap};
    ghost use Rattle.std.specs.Cmp.Lexicographic.{bytes_decides};
    ghost use Rattle.jats_chars.specs.Hashing.{fed_text};

    ghost hash_input = { λ s. fed_text s.name.now };

    ghost respects_eq = { λ x y same. ap fed_text ((bytes_decides x.name.now y.name.now).0 same) };

    fn hash<H: Hasher>(&self, state: &mut H) {
        feed(self.name, state);
    }
}

impl Equivalent<Name> for Spelled<'_> {
    ghost use Rattle.std.specs.Prelude.{bytes_eq};
    ghost use Rattle.std.specs.Cmp.Lexicographic.{nat_list_eq_equiv};
    ghost use Rattle.std.proofs.Common.{rules};
    ghost use Rattle.std.specs.Cmp.Rules.{hashing};

    ghost equivalent = { λ q k. bytes_eq q.name.now k };

    ghost respects_hash = { Prim.search (hashing, rules) };

    ghost respects_eq = { λ q. nat_list_eq_equiv.congr q.name.now };

    fn equivalent(&self, key: &Name) -> bool {
        self.name == key.text().as_slice()
    }
}
