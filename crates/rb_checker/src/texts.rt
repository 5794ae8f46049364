// The texts of a script: its methods and its top level. The events of each are gathered once, and all rules look at them.

ghost use Rattle.std.specs.Prelude.{◌≡◌, ◌++◌, [], ℕ, List, IfOk, OnOk};
ghost use Rattle.std.specs.List.{flat_map};
ghost use Rattle.rb_tree.specs.declared.span.NameId.{NameId as Id};
ghost use Rattle.rb_checker.specs.declared.event.Event.{Event as Seen};
ghost use Rattle.rb_checker.specs.Crowd.{fields_in, globals_in};
ghost use Rattle.rb_checker.specs.Events.{events_in};
ghost use Rattle.rb_checker.specs.Findings.{gathered, firsts};
ghost use Rattle.rb_checker.specs.Owners.{IsOwner};
ghost use Rattle.rb_checker.specs.Rules as rule;
ghost use Rattle.rb_checker.specs.Texts as spec;
ghost use Rattle.rb_checker.specs.Texts.{Gives};

use crate::bodies::Bodies;
use crate::crowds::{MAX_FIELDS, add_fields, add_globals, crowded};
use crate::event::Event;
use crate::found::Found;
use crate::params::repeated_param;
use crate::rules::{Given, Owner};
use crate::sets::names_of;
use crate::unsettled::find_unsettled;
use rb_tree::{Class, Method, NameId, Node, Param, Span};
use std::alloc::{AllocError, Global};

/// What the texts of a script are checked with.
#[derive(Clone, Copy)]
pub(crate) struct Texts<'p> {
    pub alloc: Global,
    pub bodies: &'p Bodies,
    pub given: Given<'p>,
}

/// The variables of texts, each where it stands.
#[derive(Drop)]
pub(crate) struct Variables {
    pub fields: Vec<(NameId, Span)>,
    pub globals: Vec<(NameId, Span)>,
}

impl Variables {
    /// None yet.
    pub(crate) fn none(alloc: Global) -> Variables
        ensures fields { result.fields.items ≡ [] }
        ensures globals { result.globals.items ≡ [] }
    {
        Variables {
            fields: Vec::new(alloc),
            globals: Vec::new(alloc),
        }
    }

    /// Adds those of a text.
    fn add(&mut self, events: &[Event]) -> Result<(), AllocError>
        ensures fields { OnOk result (self.new.fields.items ≡ self.old.fields.items ++ fields_in events.now) }
        ensures globals { OnOk result (self.new.globals.items ≡ self.old.globals.items ++ globals_in events.now) }
    {
        add_fields(&mut self.fields, events)?;
        add_globals(&mut self.globals, events)
    }
}

impl<'p> Texts<'p> {
    /// The first faults of the events of a text.
    fn found_in(self, owner: Owner<'_>, events: &[Event]) -> Result<Found, AllocError>
        ensures { IfOk result (λ found. (functions classes : List Id) (b : ℕ → List Seen) (o : rule.Owner) → Gives self.entry functions classes b → IsOwner owner.entry o
            → found ≡ firsts (spec.text_faults self.entry.given.names.now functions classes o events.now)) }
    {
        let misplaced = self.given.broken(self.alloc, owner, events)?;
        let params = repeated_param(self.alloc, events)?;
        let unsettled = find_unsettled(self.alloc, events)?;
        Ok(Found {
            misplaced,
            params,
            unsettled,
            fields: None,
        })
    }

    /// The first faults of a text, whose variables are added.
    pub(crate) fn in_text(
        self,
        owner: Owner<'_>,
        params: &[Param],
        body: &[Node],
        variables: &mut Variables,
    ) -> Result<Found, AllocError>
        ensures found { IfOk result (λ found. (functions classes : List Id) (b : ℕ → List Seen) (o : rule.Owner) → Gives self.entry functions classes b → IsOwner owner.entry o
            → found ≡ firsts (spec.text_faults self.entry.given.names.now functions classes o (events_in b params.now body.now))) }
        ensures fields { OnOk result ((functions classes : List Id) (b : ℕ → List Seen) → Gives self.entry functions classes b
            → variables.new.fields.items ≡ variables.old.fields.items ++ fields_in (events_in b params.now body.now)) }
        ensures globals { OnOk result ((functions classes : List Id) (b : ℕ → List Seen) → Gives self.entry functions classes b
            → variables.new.globals.items ≡ variables.old.globals.items ++ globals_in (events_in b params.now body.now)) }
    {
        let events = self.bodies.events(self.alloc, params, body)?;
        variables.add(events.as_slice())?;
        self.found_in(owner, events.as_slice())
    }

    /// The first faults of methods, all of one class or of the top level, whose variables are added.
    pub(crate) fn in_methods(
        self,
        owner: Owner<'_>,
        methods: &[Method],
        variables: &mut Variables,
    ) -> Result<Found, AllocError>
        ensures found { IfOk result (λ found. (functions classes : List Id) (b : ℕ → List Seen) (o : rule.Owner) → Gives self.entry functions classes b → IsOwner owner.entry o
            → found ≡ firsts (spec.methods_faults self.entry.given.names.now functions classes b o methods.now)) }
        ensures fields { OnOk result ((functions classes : List Id) (b : ℕ → List Seen) → Gives self.entry functions classes b
            → variables.new.fields.items ≡ variables.old.fields.items ++ fields_in (flat_map (spec.method_events b) methods.now)) }
        ensures globals { OnOk result ((functions classes : List Id) (b : ℕ → List Seen) → Gives self.entry functions classes b
            → variables.new.globals.items ≡ variables.old.globals.items ++ globals_in (flat_map (spec.method_events b) methods.now)) }
    {
        let mut found = Found::none();
        'methods: for method in methods {
            let next = self.in_text(
                owner,
                method.params.as_slice(),
                method.body.as_slice(),
                variables,
            )?;
            found = found.and(next);
        }
        Ok(found)
    }

    /// The first faults of a class, whose variables are added.
    fn in_class(self, class: &Class, variables: &mut Variables) -> Result<Found, AllocError>
        ensures found { IfOk result (λ found. (functions classes : List Id) (b : ℕ → List Seen) → Gives self.entry functions classes b
            → found ≡ firsts (spec.class_faults self.entry.given.names.now functions classes b class.now)) }
        ensures globals { OnOk result ((functions classes : List Id) (b : ℕ → List Seen) → Gives self.entry functions classes b
            → variables.new.globals.items ≡ variables.old.globals.items ++ globals_in (flat_map (spec.method_events b) class.now.methods)) }
    {
        let methods = names_of(self.alloc, class.methods.as_slice())?;
        let owner = Owner {
            methods: Some(&methods),
            in_method: true,
        };
        variables.fields.clear();
        let found = self.in_methods(owner, class.methods.as_slice(), variables)?;
        let fields = crowded(self.alloc, MAX_FIELDS, variables.fields.as_slice())?;
        Ok(found.with_fields(fields))
    }

    /// The first faults of classes, whose variables are added.
    pub(crate) fn in_classes(
        self,
        all: &[Class],
        variables: &mut Variables,
    ) -> Result<Found, AllocError>
        ensures found { IfOk result (λ found. (functions classes : List Id) (b : ℕ → List Seen) → Gives self.entry functions classes b
            → found ≡ firsts (gathered (spec.class_faults self.entry.given.names.now functions classes b) all.now)) }
        ensures globals { OnOk result ((functions classes : List Id) (b : ℕ → List Seen) → Gives self.entry functions classes b
            → variables.new.globals.items ≡ variables.old.globals.items ++ globals_in (flat_map (spec.class_events b) all.now)) }
    {
        let mut found = Found::none();
        'classes: for class in all {
            let next = self.in_class(class, variables)?;
            found = found.and(next);
        }
        Ok(found)
    }
}
