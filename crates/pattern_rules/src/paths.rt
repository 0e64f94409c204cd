//! Paths as they are written.
ghost use Rattle.std.specs.Prelude.{◌≡◌};
ghost use Rattle.decl_syntax.specs.Patterns.{path_view};
ghost use Rattle.pattern_rules.specs.Namings.{is_short};

use decl_syntax::Path;

/// Whether a path is one or two plain names, as all paths in patterns must be.
pub fn is_short(path: &Path) -> bool
    ensures { result ≡ is_short (path_view path.now) }
{
    path.plain && path.names.len() <= 2
}
