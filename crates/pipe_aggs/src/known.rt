//! An arena, with what is known of its nodes over a schema.

ghost use Rattle.std.specs.Prelude.{◌≡◌, IfOk, option_copied, slice_get};
ghost use Rattle.pipe_model.specs.Convertible.{unaliased};
ghost use Rattle.pipe_model.specs.Expr.{name_of};
ghost use Rattle.pipe_aggs.specs.KnownArena.{IsKnown};
ghost use Rattle.pipe_exprs.specs.Nodes.{tree_if};
ghost use Rattle.pipe_exprs.specs.NodeFacts.{facts_of};
ghost use Rattle.pipe_exprs.specs.Trees.{IsArena, tree, trees};
ghost use Rattle.pipe_model.specs.Typing.{known_type};

use pipe_columns::{DataType, Schema};
use pipe_exprs::{AExpr, Arena, Node, NodeFacts, alias_input, facts_at, node_facts};
use std::alloc::{AllocError, Global};
use std::marker::Model;

/// An arena, with what is known of its nodes over a schema. Here a node that isn't there is `Len`.
#[derive(Drop)]
pub(crate) struct Known<'a> {
    arena: &'a Arena,
    schema: &'a Schema,
    facts: Vec<NodeFacts>,
}

impl<'a> Model for Known<'a> {
    ghost use Rattle.pipe_aggs.specs.KnownArena.{IsKnown, KnownArena};

    ghost Value = { KnownArena };

    ghost view = { λ a. record { exprs = a.arena.now; fields = a.schema.now } };

    ghost invariant = { λ a. IsKnown a.arena.now a.schema.now a.facts.items };
}

impl<'a> Known<'a> {
    pub(crate) fn new(
        alloc: Global,
        arena: &'a Arena,
        schema: &'a Schema,
    ) -> Result<Known<'a>, AllocError>
        ensures { IfOk result (λ k. k ≡ record { exprs = arena.now; fields = schema.now }) }
    {
        let facts = node_facts(alloc, arena, schema.fields())?;
        Ok(Known {
            arena,
            schema,
            facts,
        })
    }

    /// What is known of a node.
    pub(crate) fn facts(&self, node: Node) -> &NodeFacts
        ensures { result.now ≡ facts_of self.now.fields (tree self.now.exprs node) }
    {
        facts_at(&self.facts, node)
    }

    /// What is known of each node.
    pub(crate) fn all_facts(&self) -> &[NodeFacts]
        ensures { IsKnown self.now.exprs self.now.fields result.now }
    {
        &self.facts
    }

    /// The expression of a node.
    pub(crate) fn expr(&self, node: Node) -> Option<&AExpr>
        ensures found { option_copied result ≡ slice_get self.now.exprs node.0 }
        ensures earlier { IsArena self.now.exprs }
        ensures tree { tree_if (trees self.now.exprs) (option_copied result)
            ≡ tree self.now.exprs node }
    {
        self.arena.find(node)
    }

    /// The node under the outermost alias of a node, or the node itself.
    pub(crate) fn unaliased(&self, node: Node) -> Node
        ensures { tree self.now.exprs result ≡ unaliased (tree self.now.exprs node) }
    {
        match alias_input(self.arena.find(node)) {
            Some(input) => input,
            None => node,
        }
    }

    /// The name of a node's field.
    pub(crate) fn name(&self, node: Node) -> &str
        ensures { result.now ≡ name_of (tree self.now.exprs node) }
    {
        self.arena.name(node)
    }

    /// The type of a node that has one.
    pub(crate) fn dtype(&self, node: Node) -> DataType
        ensures { result ≡ known_type (tree self.now.exprs node) self.now.fields }
    {
        match self.facts(node).dtype {
            Some(dtype) => dtype,
            None => DataType::UInt32,
        }
    }
}
