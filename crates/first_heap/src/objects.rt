// The first objects.
ghost use Rattle.std.specs.Prelude.{◌≡◌, ◌<◌, ◌++◌, ℕ, pos, All, IfOk, List, OnOk, length, map};
ghost use Rattle.graph_model.specs.declared.types.Node.{Node as NodeOf};
ghost use Rattle.graph_model.specs.declared.types.Graph.{Graph as GraphOf};
ghost use Rattle.graph_model.specs.declared.types.Value.TheVariants.{Int};
ghost use Rattle.class_set.specs.Facts.{facts_of};
ghost use Rattle.plain_model.specs.Facts.{classes_of, stream_class};
ghost use Rattle.plain_model.specs.First.{class_named, first_objects, node_object};
ghost use Rattle.first_heap.specs.Objects.{IsOfClass, text_object};

use crate::made;
use ap_base::ListOf;
use class_set::ClassSet;
use graph_model::{Node, Obj, Value};
use std::alloc::{AllocError, Global};

/// The place of PrintStream among the built-in classes.
const PRINT_STREAM: u32 = 1;

/// The number of PrintStream.
fn stream_class(set: &ClassSet) -> u32
    ensures { result ≡ stream_class (facts_of set.now) }
{
    set.file_count() as u32 + PRINT_STREAM
}

/// The number of the class of a node, by its name.
fn class_of(set: &ClassSet, node: &Node) -> u32
    requires class { IsOfClass (facts_of set.now) node.now }
    ensures { result ≡ class_named (classes_of (facts_of set.now)) node.now.shape.name }
{
    set.class_named(node.shape.name.as_slice()).unwrap()
}

/// The objects of the nodes, in their order.
fn node_objects(alloc: Global, set: &ClassSet, nodes: &[Node]) -> Result<Vec<Obj>, AllocError>
    requires classes { All (IsOfClass (facts_of set.now)) nodes.now }
    ensures { (opening : GraphOf) → IfOk result (λ objects.
        objects.items ≡ map (node_object (facts_of set.now) opening) nodes.now) }
{
    let mut objects = Vec::new(alloc);
    for node in nodes {
        let values = Vec::from_slice(alloc, node.values.as_slice())?;
        objects.push(made::new(class_of(set, node), values))?;
    }
    Ok(objects)
}

fn char_value(char: u16) -> Value
    ensures { result ≡ Int (pos char) }
{
    Value::Int(i32::from(char))
}

fn char_values(alloc: Global, chars: &[u16]) -> Result<Vec<Value>, AllocError>
    ensures { IfOk result (λ values. values.items ≡ map (λ c. Int (pos c)) chars.now) }
{
    chars.iter().map(|char| char_value(*char)).collect(alloc)
}

/// Adds Strings of these chars, in their order.
fn add_texts(
    alloc: Global,
    objects: &mut Vec<Obj>,
    class: u32,
    texts: &[ListOf<u16>],
) -> Result<(), AllocError>
    ensures { OnOk result (objects.new.items
        ≡ objects.old.items ++ map (text_object class) texts.now) }
{
    for text in texts {
        let values = char_values(alloc, text.as_slice())?;
        objects.push(made::new(class, values))?;
    }
    Ok(())
}

/// The first objects: the nodes, the object of `System.out`, the empty array of arguments, and a
/// String for each literal.
pub(crate) fn first_objects(
    alloc: Global,
    set: &ClassSet,
    nodes: &[Node],
    literals: &[ListOf<u16>],
) -> Result<Vec<Obj>, AllocError>
    requires classes { All (IsOfClass (facts_of set.now)) nodes.now }
    requires literals { literals.now ≡ (facts_of set.now).literals }
    ensures { (opening : GraphOf) → opening.nodes ≡ nodes.now → IfOk result (λ objects.
        objects.items ≡ first_objects (facts_of set.now) opening) }
{
    let mut objects = node_objects(alloc, set, nodes)?;
    objects.push(made::new(stream_class(set), Vec::new(alloc)))?;
    let array = set.array_named(b"[Ljava/lang/String;");
    objects.push(made::new(array, Vec::new(alloc)))?;
    add_texts(alloc, &mut objects, set.known().string, literals)?;
    Ok(objects)
}
