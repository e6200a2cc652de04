//! The header line of the flags.

ghost use Rattle.std.specs.Prelude.{◌≡◌};
ghost use Rattle.rv_listing.specs.Tokens.{words_after};
ghost use Rattle.rv_listing.specs.FlagsHeader.{flags_form, switched, with_flag};

use crate::tokens::{is, next_part};
use rv_base::IsaFlags;

fn switched(is_on: bool, on: IsaFlags) -> Option<IsaFlags>
    ensures { result ≡ switched is_on on }
{
    if is_on { None } else { Some(on) }
}

/// Switches a further flag on, by its name: `m`, `zba`, `zbb`, `zca`, `zcb`, `zcd` or `zfhmin`. One that is on already may not
/// be named again.
#[tactic(auto, unfolding(crate::specs::FlagsHeader::with_flag))]
pub fn with_flag(flags: IsaFlags, w: &[u8]) -> Option<IsaFlags>
    ensures { result ≡ with_flag flags w.now }
{
    let mut on = flags;
    if is(b"m", w) {
        on.has_m = true;
        switched(flags.has_m, on)
    } else if is(b"zba", w) {
        on.has_zba = true;
        switched(flags.has_zba, on)
    } else if is(b"zbb", w) {
        on.has_zbb = true;
        switched(flags.has_zbb, on)
    } else if is(b"zca", w) {
        on.has_zca = true;
        switched(flags.has_zca, on)
    } else if is(b"zcb", w) {
        on.has_zcb = true;
        switched(flags.has_zcb, on)
    } else if is(b"zcd", w) {
        on.has_zcd = true;
        switched(flags.has_zcd, on)
    } else if is(b"zfhmin", w) {
        on.has_zfhmin = true;
        switched(flags.has_zfhmin, on)
    } else {
        None
    }
}

/// The flags of a header line, with these words after its name.
pub(crate) fn flags(rest: &[u8]) -> Option<IsaFlags>
    ensures { result ≡ flags_form (words_after rest.now) }
{
    let mut flags = IsaFlags::none();
    let mut rest = rest;
    while let Some((w, after)) = next_part(b' ', rest) {
        flags = with_flag(flags, w)?;
        rest = after;
    }
    Some(flags)
}
