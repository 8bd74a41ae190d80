// Which graphs are the same.
ghost use Rattle.std.specs.Prelude.{◌≡◌, Decides};

use ap_base::Kind;
use graph_model::{Field, Graph, NamedValue, Node, Shape, Value};

fn same_value(a: &Value, b: &Value) -> bool
    ensures { Decides result (a.now ≡ b.now) }
{
    *a == *b
}

fn same_values(a: &[Value], b: &[Value]) -> bool
    ensures { Decides result (a.now ≡ b.now) }
{
    if a.len() != b.len() {
        return false;
    }
    for i in 0..a.len() {
        if !same_value(&a[i], &b[i]) {
            return false;
        }
    }
    true
}

fn same_field(a: &Field, b: &Field) -> bool
    ensures { Decides result (a.now ≡ b.now) }
{
    a.name.as_slice() == b.name.as_slice() && (a.kind == b.kind && a.kept == b.kept)
}

fn same_fields(a: &[Field], b: &[Field]) -> bool
    ensures { Decides result (a.now ≡ b.now) }
{
    if a.len() != b.len() {
        return false;
    }
    for i in 0..a.len() {
        if !same_field(&a[i], &b[i]) {
            return false;
        }
    }
    true
}

fn same_element(a: Option<Kind>, b: Option<Kind>) -> bool
    ensures { Decides result (a ≡ b) }
{
    match a {
        None => b.is_none(),
        Some(kind) => match b {
            None => false,
            Some(other) => kind == other,
        },
    }
}

fn same_shape(a: &Shape, b: &Shape) -> bool
    ensures { Decides result (a.now ≡ b.now) }
{
    a.name.as_slice() == b.name.as_slice()
        && (same_fields(a.fields.as_slice(), b.fields.as_slice())
            && same_element(a.element, b.element))
}

fn same_node(a: &Node, b: &Node) -> bool
    ensures { Decides result (a.now ≡ b.now) }
{
    same_shape(&a.shape, &b.shape) && same_values(a.values.as_slice(), b.values.as_slice())
}

fn same_nodes(a: &[Node], b: &[Node]) -> bool
    ensures { Decides result (a.now ≡ b.now) }
{
    if a.len() != b.len() {
        return false;
    }
    for i in 0..a.len() {
        if !same_node(&a[i], &b[i]) {
            return false;
        }
    }
    true
}

fn same_root(a: &NamedValue, b: &NamedValue) -> bool
    ensures { Decides result (a.now ≡ b.now) }
{
    a.name.as_slice() == b.name.as_slice() && same_value(&a.value, &b.value)
}

fn same_roots(a: &[NamedValue], b: &[NamedValue]) -> bool
    ensures { Decides result (a.now ≡ b.now) }
{
    if a.len() != b.len() {
        return false;
    }
    for i in 0..a.len() {
        if !same_root(&a[i], &b[i]) {
            return false;
        }
    }
    true
}

/// Whether two graphs are the same: roots with their names and values in order, and nodes with their shapes and values.
pub fn same_graph(a: &Graph, b: &Graph) -> bool
    ensures { Decides result (a.now ≡ b.now) }
{
    same_roots(a.roots.as_slice(), b.roots.as_slice())
        && same_nodes(a.nodes.as_slice(), b.nodes.as_slice())
}
