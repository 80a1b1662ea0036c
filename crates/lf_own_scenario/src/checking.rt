//! Whether a promise names only nodes that there are.

ghost use Rattle.std.specs.Prelude.{◌≡◌};
ghost use Rattle.std.specs.List.{list_all};
ghost use Rattle.lf_own_scenario.specs.Unfolding.{names_nodes};

use lf_promises::Promise;

/// Whether each node that a promise names by its number is one of so many.
#[cycle(naming)]
pub(crate) fn names_nodes(nodes: u32, promise: &Promise) -> bool
    ensures { result ≡ names_nodes nodes promise.now }
{
    match promise {
        Promise::All(parts) | Promise::Any(parts) | Promise::Always(parts) | Promise::Ever(parts) =>
            { all_name_nodes(nodes, parts.as_slice()) }
        Promise::Nodes { .. } | Promise::One(_) => true,
        Promise::Down { node } | Promise::At { node, .. } => *node < nodes,
    }
}

/// Whether all parts name only such nodes.
#[cycle(naming)]
fn all_name_nodes(nodes: u32, parts: &[Promise]) -> bool
    ensures { result ≡ list_all (names_nodes nodes) parts.now }
{
    'parts: for part in parts {
        if !names_nodes(nodes, part) {
            return false;
        }
    }
    true
}
