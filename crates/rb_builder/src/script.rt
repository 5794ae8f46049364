// Methods, classes and the items of a script.

ghost use Rattle.std.specs.Prelude.{◌≡◌, List, map, OnOk, OnErr, IfOk, Err};
ghost use Rattle.rb_cursor.specs.declared.fault.ParseFault.TheVariants.{Memory};
ghost use Rattle.rb_grammar.specs.Tree as tree;
ghost use Rattle.rb_cursor.specs.Word.{word_by};
ghost use Rattle.rb_builder.specs.Said.{text_given};
ghost use Rattle.rb_builder.specs.Grown.{IsTree, IsRow};
ghost use Rattle.rb_builder.specs.Script.{IsMethod, AreMembers, IsClass, AreItems};
ghost use Rattle.rb_builder.specs.Builder.{walk_of};

use crate::block::GrownParams;
use crate::builder::Builder;
use crate::grown::{Grown, Row};
use crate::said::Said;
use crate::word::Given;
use rb_cursor::{ParseFault, Word};
use rb_tree::{Class, Items, Method, Node, Span};

/// A method with what its text says.
#[derive(Drop)]
pub struct GrownMethod<'t> {
    pub method: Method,
    pub said: Said<'t>,
}

/// The methods of a class with what their text says.
#[derive(Drop)]
pub struct GrownMembers<'t> {
    pub methods: Items<Method>,
    pub said: Said<'t>,
}

/// A class with what its text says.
#[derive(Drop)]
pub struct GrownClass<'t> {
    pub class: Class,
    pub said: Said<'t>,
}

/// The items of a script with what their text says.
#[derive(Drop)]
pub struct GrownItems<'t> {
    pub classes: Items<Class>,
    pub functions: Items<Method>,
    pub main: Items<Node>,
    pub said: Said<'t>,
}

impl<'n> Builder<'n> {
    /// A method, with the name that a token gives, at that token.
    pub fn method<'t>(
        &self,
        name: Given<'t>,
        at: Span,
        params: &[Word<'t>],
        body: Row<'t>,
    ) -> Result<GrownMethod<'t>, ParseFault>
        ensures ok { IfOk result (λ m. (w : tree.Word) (trees : List tree.Tree) → w.text ≡ text_given name.entry → w.at ≡ at → IsRow (walk_of self.now) body.entry trees → IsMethod (walk_of self.now) m (record { name = w; params = map word_by params.now; body = trees })) }
        ensures memory { OnErr result (result ≡ Err Memory) }
    {
        let Row {
            nodes,
            said: last,
            ..
        } = body;
        let mut said = self.giving(name)?;
        let GrownParams {
            params,
            said: behind,
        } = self.params(params)?;
        said.join(behind)?;
        said.join(last)?;
        let number = self.number(name)?;
        let method = Method {
            name: number,
            params,
            body: nodes,
            at,
        };
        Ok(GrownMethod { method, said })
    }

    /// No methods.
    pub fn members<'t>(&self) -> GrownMembers<'t>
        ensures { AreMembers (walk_of self.now) result tree.no_members }
    {
        GrownMembers {
            methods: Items::new(self.alloc),
            said: Said::new(self.alloc),
        }
    }

    /// Adds a method behind others.
    pub fn push_method<'t>(
        &self,
        members: &mut GrownMembers<'t>,
        method: GrownMethod<'t>,
    ) -> Result<(), ParseFault>
        ensures ok { OnOk result ((m : tree.Members) (f : tree.MethodTree) → AreMembers (walk_of self.now) members.old m → IsMethod (walk_of self.now) method.entry f → AreMembers (walk_of self.now) members.new (tree.with_method m f)) }
        ensures memory { OnErr result (result ≡ Err Memory) }
    {
        let GrownMethod { method, said } = method;
        self.keep(&mut members.methods, method)?;
        members.said.join(said)?;
        Ok(())
    }

    /// A class with its methods.
    pub fn class<'t>(
        &self,
        name: Word<'t>,
        members: GrownMembers<'t>,
    ) -> Result<GrownClass<'t>, ParseFault>
        ensures ok { IfOk result (λ c. (m : tree.Members) → AreMembers (walk_of self.now) members.entry m → IsClass (walk_of self.now) c (record { name = word_by name.entry; members = m })) }
        ensures memory { OnErr result (result ≡ Err Memory) }
    {
        let GrownMembers {
            methods,
            said: behind,
        } = members;
        let mut said = self.giving(Given::Plain(name.text))?;
        said.join(behind)?;
        let number = self.number(Given::Plain(name.text))?;
        let class = Class {
            name: number,
            methods,
            at: name.at,
        };
        Ok(GrownClass { class, said })
    }

    /// No items.
    pub fn items<'t>(&self) -> GrownItems<'t>
        ensures { AreItems (walk_of self.now) result tree.no_items }
    {
        GrownItems {
            classes: Items::new(self.alloc),
            functions: Items::new(self.alloc),
            main: Items::new(self.alloc),
            said: Said::new(self.alloc),
        }
    }

    /// Adds a class behind other items.
    pub fn push_class<'t>(
        &self,
        items: &mut GrownItems<'t>,
        class: GrownClass<'t>,
    ) -> Result<(), ParseFault>
        ensures ok { OnOk result ((i : tree.Items) (c : tree.ClassTree) → AreItems (walk_of self.now) items.old i → IsClass (walk_of self.now) class.entry c → AreItems (walk_of self.now) items.new (tree.with_class i c)) }
        ensures memory { OnErr result (result ≡ Err Memory) }
    {
        let GrownClass { class, said } = class;
        self.keep(&mut items.classes, class)?;
        items.said.join(said)?;
        Ok(())
    }

    /// Adds a method of the top level behind other items.
    pub fn push_function<'t>(
        &self,
        items: &mut GrownItems<'t>,
        method: GrownMethod<'t>,
    ) -> Result<(), ParseFault>
        ensures ok { OnOk result ((i : tree.Items) (f : tree.MethodTree) → AreItems (walk_of self.now) items.old i → IsMethod (walk_of self.now) method.entry f → AreItems (walk_of self.now) items.new (tree.with_function i f)) }
        ensures memory { OnErr result (result ≡ Err Memory) }
    {
        let GrownMethod { method, said } = method;
        self.keep(&mut items.functions, method)?;
        items.said.join(said)?;
        Ok(())
    }

    /// Adds a statement of the top level behind other items.
    pub fn push_statement<'t>(
        &self,
        items: &mut GrownItems<'t>,
        grown: Grown<'t>,
    ) -> Result<(), ParseFault>
        ensures ok { OnOk result ((i : tree.Items) (a : tree.Tree) → AreItems (walk_of self.now) items.old i → IsTree (walk_of self.now) grown.entry a → AreItems (walk_of self.now) items.new (tree.with_statement i a)) }
        ensures memory { OnErr result (result ≡ Err Memory) }
    {
        let Grown { node, said, .. } = grown;
        self.keep(&mut items.main, node.into_inner())?;
        items.said.join(said)?;
        Ok(())
    }
}
