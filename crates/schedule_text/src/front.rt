//! The front of a line, by which it tells its kind.
ghost use Rattle.std.specs.Prelude.{◌≡◌};
ghost use Rattle.std.specs.Option.{option_map};
ghost use Rattle.tree_specs.specs.Texts.Grammar.{strip};

/// What follows this front, by which a line tells its kind.
pub(crate) fn after_front<'a>(line: &'a [u8], front: &[u8]) -> Option<&'a [u8]>
    ensures { option_map (λ rest. rest.now) result ≡ strip front.now line.now }
{
    line.strip_prefix(front)
}
