// The text of a collection, made piece by piece.

ghost use Rattle.std.specs.Prelude.{◌≡◌, ◌∷◌, ◌++◌, true, map, length, Some, None, Err, IfOk, IfErr, OnOk, OnErr};
ghost use Rattle.rb_model.specs.Values.{plain};
ghost use Rattle.rb_model.specs.Acts.{Elements, Pairs};
ghost use Rattle.rb_machine.specs.Control.{Between};
ghost use Rattle.rb_machine.specs.Drafts as spec;
ghost use Rattle.rb_render.specs.Drafting.{form_of, mark_text, reference, open_of, plain_pair, takes_memory, IsTold, Wants};

mod marks;
mod parts;
mod ways;
mod written;

use crate::show::RenderFault;
use marks::{Mark, again};
use parts::{Begun, Coming, Next, behind_key, is_begun, lead_of, next_in, no_elements};
use rb_model::{Ref, Value};
use rb_tree::Program;
use std::alloc::Global;
use std::marker::Model;
use std::mem;
use ways::{Way, way_of};
use written::Written;

/// How the text of a collection is made.
#[derive(Clone, Copy, Debug, PartialEq, Eq)]
pub enum TextForm {
    /// As `inspect` gives it.
    Inspected,
    /// Line by line, as `puts` writes an array.
    Lined,
}

/// What a text that is made needs next.
#[derive(Drop)]
pub enum Want {
    /// Nothing: it goes on.
    More,
    /// It is finished.
    Finished,
    /// A step: the text of an element or a pair begins.
    Element,
    /// The elements or the pairs of a collection, by one copy.
    Copy(Ref),
    /// The text of a value among the elements of an array that is written line by line.
    Text(Value),
}

/// A text with collections in it, as far as it is made. Contracts see the draft of the machine.
#[derive(Drop)]
pub struct Draft {
    form: TextForm,
    coming: Coming,
    written: Written,
    /// The innermost last.
    begun: Vec<Begun>,
}

impl Model for Draft {
    ghost use Rattle.rb_machine.specs.Control.{Draft};
    ghost use Rattle.rb_render.specs.Drafting.{form_of, coming_of, opens};

    ghost Value = { Draft };

    ghost view = { λ d. record { form = form_of d.form; coming = coming_of d.coming; bytes = d.written.bytes.items; begun = opens d.begun.items } };
}

impl Draft {
    /// The text of a value, as it begins.
    pub fn new(alloc: Global, form: TextForm, value: Value) -> Draft
        ensures { result ≡ spec.draft_of (form_of form) (plain value) }
    {
        Draft {
            form,
            coming: Coming::OfValue(Mark::Nothing, value),
            written: Written {
                alloc,
                bytes: Vec::new(alloc),
                joining: Vec::new(alloc),
            },
            begun: Vec::new(alloc),
        }
    }

    /// What comes next, where that is done here, and what is needed for it else.
    pub fn ask(&mut self, program: &Program) -> Result<Want, RenderFault>
        ensures wants { IfOk result (λ want. Wants program.now self.old want self.new) }
        ensures too_long { result ≡ Err RenderFault.TooLong → spec.needs program.now self.old ≡ spec.Goes None }
        ensures memory { result ≡ Err RenderFault.Memory → takes_memory (spec.needs program.now self.old) ≡ true }
        ensures err { OnErr result (self.new ≡ self.old) }
    {
        match &self.coming {
            Coming::Between => self.go_on(),
            Coming::OfValue(lead, value) => match way_of(self.form, value) {
                Way::Known => {
                    self.written.add_value(program, *lead, value)?;
                    self.coming = Coming::Between;
                    Ok(Want::More)
                }
                Way::Read(thing) if is_begun(&self.begun, thing) => {
                    self.written.add_mark(*lead, again(self.form, thing.sort))?;
                    self.coming = Coming::Between;
                    Ok(Want::More)
                }
                Way::Read(thing) => Ok(Want::Copy(thing)),
                Way::Asked => match value.share() {
                    Ok(value) => Ok(Want::Text(value)),
                    Err(_) => Err(RenderFault::Memory),
                },
            },
            Coming::OfPair(lead, key, _) => {
                self.written.add_key(program, *lead, key)?;
                self.coming = behind_key(mem::replace(&mut self.coming, Coming::Between));
                Ok(Want::More)
            }
        }
    }

    /// What comes next in the innermost collection.
    fn go_on(&mut self) -> Result<Want, RenderFault>
        ensures wants { IfOk result (λ want. IsTold (spec.between self.old self.old.begun) self.old want self.new) }
        ensures too_long { result ≡ Err RenderFault.TooLong → spec.between self.old self.old.begun ≡ spec.Goes None }
        ensures memory { result ≡ Err RenderFault.Memory → takes_memory (spec.between self.old self.old.begun) ≡ true }
        ensures err { OnErr result (self.new ≡ self.old) }
    {
        match next_in(&mut self.begun, self.form) {
            None => Ok(Want::Finished),
            Some(Next::Comes(coming)) => {
                self.coming = coming;
                Ok(Want::Element)
            }
            Some(Next::Ends(mark)) => {
                self.written.add_mark(Mark::Nothing, mark)?;
                self.coming = Coming::Between;
                drop(self.begun.pop());
                Ok(Want::More)
            }
        }
    }

    /// Gives the elements of an array that was to be copied.
    pub fn give_elements(&mut self, thing: Ref, values: Vec<Value>) -> Result<(), RenderFault>
        ensures given { OnOk result (spec.opened self.old (reference thing) (Elements (map plain values.items)) ≡ Some self.new) }
        ensures too_long { result ≡ Err RenderFault.TooLong → spec.opened self.old (reference thing) (Elements (map plain values.items)) ≡ None }
        ensures err { OnErr result (self.new ≡ self.old) }
    {
        match self.form {
            TextForm::Inspected => self.open(Mark::OpenBracket, Begun::of_elements(thing, values)),
            TextForm::Lined if values.is_empty() => self.add_no_elements(),
            TextForm::Lined => self.begin(Begun::of_elements(thing, values)),
        }
    }

    /// Gives the pairs of a hash that was to be copied.
    pub fn give_pairs(&mut self, thing: Ref, pairs: Vec<(Value, Value)>) -> Result<(), RenderFault>
        ensures given { OnOk result (spec.opened self.old (reference thing) (Pairs (map plain_pair pairs.items)) ≡ Some self.new) }
        ensures too_long { result ≡ Err RenderFault.TooLong → spec.opened self.old (reference thing) (Pairs (map plain_pair pairs.items)) ≡ None }
        ensures err { OnErr result (self.new ≡ self.old) }
    {
        self.open(Mark::OpenBrace, Begun::of_pairs(thing, pairs))
    }

    /// Gives a text that was asked for, which is a line.
    pub fn give_text(&mut self, text: &[u8]) -> Result<(), RenderFault>
        ensures given { OnOk result (spec.with_line self.old text.now ≡ Some self.new) }
        ensures too_long { result ≡ Err RenderFault.TooLong → spec.with_line self.old text.now ≡ None }
        ensures err { OnErr result (self.new ≡ self.old) }
    {
        self.written.add_line(text)?;
        self.coming = Coming::Between;
        Ok(())
    }

    /// Begins a collection with what opens it. Room comes first, so that nothing fails once the bytes are there.
    fn open(&mut self, opening: Mark, begun: Begun) -> Result<(), RenderFault>
        ensures given { OnOk result (spec.joined self.old (spec.lead_of self.old.coming ++ mark_text opening) Between (open_of begun ∷ self.old.begun) ≡ Some self.new) }
        ensures too_long { result ≡ Err RenderFault.TooLong → spec.joined self.old (spec.lead_of self.old.coming ++ mark_text opening) Between (open_of begun ∷ self.old.begun) ≡ None }
        ensures err { OnErr result (self.new ≡ self.old) }
    {
        let lead = lead_of(&self.coming);
        if let Err(_) = self.begun.try_reserve(1) {
            return Err(RenderFault::Memory);
        }
        self.written.add_mark(lead, opening)?;
        self.coming = Coming::Between;
        self.begun.push_reserved(begun);
        Ok(())
    }

    /// Begins a collection that nothing opens.
    fn begin(&mut self, begun: Begun) -> Result<(), RenderFault>
        ensures begun { OnOk result (self.new ≡ spec.with_coming self.old Between (open_of begun ∷ self.old.begun)) }
        ensures err { IfErr result (λ fault. (fault ≡ RenderFault.Memory) × (self.new ≡ self.old)) }
    {
        if let Err(_) = self.begun.push(begun) {
            return Err(RenderFault::Memory);
        }
        self.coming = Coming::Between;
        Ok(())
    }

    /// Adds what is written of an array without elements.
    fn add_no_elements(&mut self) -> Result<(), RenderFault>
        ensures given { OnOk result (spec.joined self.old (spec.empty_lines self.old.begun) Between self.old.begun ≡ Some self.new) }
        ensures too_long { result ≡ Err RenderFault.TooLong → spec.joined self.old (spec.empty_lines self.old.begun) Between self.old.begun ≡ None }
        ensures err { OnErr result (self.new ≡ self.old) }
    {
        self.written
            .add_mark(Mark::Nothing, no_elements(&self.begun))?;
        self.coming = Coming::Between;
        Ok(())
    }

    /// How many collections are begun.
    pub fn depth(&self) -> usize
        ensures { result ≡ length self.now.begun }
    {
        self.begun.len()
    }

    /// The bytes so far.
    pub fn into_bytes(self) -> Vec<u8>
        ensures { result.items ≡ self.bytes }
    {
        let written = self.written;
        written.bytes
    }
}
