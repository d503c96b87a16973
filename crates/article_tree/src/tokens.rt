//! The token at a place of a text.

ghost use Rattle.std.specs.Prelude.{◌<◌, IfOk, length, option_map};
ghost use Rattle.article_tree.specs.Taken.{NextToken, with_end};

use crate::taking::first_token;
use crate::token::Lent;
use jats_chars::NoMemory;
use std::alloc::Global;

/// The token at a place and the place behind it, or None exactly where no token begins there.
pub fn token_at(alloc: Global, text: &[char], at: usize) -> Result<Option<(Lent, usize)>, NoMemory>
    requires { at < length text.now }
    ensures { IfOk result (λ o. NextToken text.now at (option_map with_end o)) }
{
    match first_token(alloc, text.split_at(at).1)? {
        None => Ok(None),
        Some((token, rest)) => {
            let next = text.len() - rest.len();
            Ok(Some((token, next)))
        }
    }
}
