// The numbers of names and of the bodies of threads.

ghost use Rattle.std.specs.Prelude.{◌≡◌, ◌++◌, ℕ, nat_eq, map, IfOk, OnOk, OnErr, Err};
ghost use Rattle.rb_tree.specs.Texts.{with_text};
ghost use Rattle.rb_grammar.specs.Program.{in_order};
ghost use Rattle.rb_builder.specs.Said.{text_given};
ghost use Rattle.rb_builder.specs.Numbered.{AreNumbered, number_at, number_or};
ghost use Rattle.rb_cursor.specs.declared.fault.ParseFault.TheVariants.{Memory};

use crate::said::Said;
use crate::word::Given;
use rb_cursor::ParseFault;
use rb_tree::{NameId, Names, Span};
use std::alloc::Global;
use std::collections::HashMap;

/// The numbers of the names of a script, and those of the bodies of its threads by the places of their blocks.
#[derive(Drop)]
pub struct Numbers {
    alloc: Global,
    names: Names,
    bodies: HashMap<u32, u32>,
}

impl Numbers {
    ghost use Rattle.rb_builder.specs.Numbers.{numbers_of};
    ghost use Rattle.rb_builder.specs.Numbered.{NumbersAll};

    /// The numbers of the names and the bodies that a first walk gathered, each in the order of the text.
    pub fn of(alloc: Global, said: &Said<'_>) -> Result<Numbers, ParseFault>
        ensures ok { IfOk result (NumbersAll said.now.words said.now.threads) }
        ensures memory { OnErr result (result ≡ Err Memory) }
    {
        let names = names_of(alloc, said.words.as_slice())?;
        let bodies = bodies_of(alloc, said.threads.as_slice())?;
        Ok(Numbers {
            alloc,
            names,
            bodies,
        })
    }

    /// The names.
    pub fn into_names(self) -> Names
        ensures { result ≡ self.names }
    {
        let Numbers { names, .. } = self;
        names
    }

    /// The number of a name.
    pub fn name(&self, text: &[u8]) -> NameId
        ensures { result ≡ (numbers_of self.now).name text.now }
    {
        match self.names.find(text) {
            Some(id) => id,
            None => NameId(0),
        }
    }

    /// The number of a name that a token gives.
    pub fn given(&self, given: Given<'_>) -> Result<NameId, ParseFault>
        ensures ok { IfOk result (λ id. id ≡ (numbers_of self.now).name (text_given given.entry)) }
        ensures memory { OnErr result (result ≡ Err Memory) }
    {
        match given {
            Given::Plain(text) => Ok(self.name(text)),
            Given::Setter(text) => self.joined(text, SETTER_MARK),
            Given::Field(text) => self.joined(FIELD_MARK, text),
        }
    }

    /// The number of a name whose text is given in two parts.
    fn joined(&self, first: &[u8], second: &[u8]) -> Result<NameId, ParseFault>
        ensures ok { IfOk result (λ id. id ≡ (numbers_of self.now).name (first.now ++ second.now)) }
        ensures memory { OnErr result (result ≡ Err Memory) }
    {
        let whole = whole_text(self.alloc, first, second)?;
        Ok(self.name(whole.as_slice()))
    }

    /// The number of the body of the thread whose block stands at a place.
    pub fn body(&self, at: Span) -> u32
        ensures { result ≡ (numbers_of self.now).body at }
    {
        self.bodies.get(&at.from).copied().unwrap_or(0)
    }
}

/// The different names that tokens give, in the order in which they first stand in the text.
fn names_of(alloc: Global, words: &[Given<'_>]) -> Result<Names, ParseFault>
    ensures ok { IfOk result (λ names. names ≡ in_order (map text_given words.now)) }
    ensures memory { OnErr result (result ≡ Err Memory) }
{
    let mut names = Names::new(alloc);
    'words: for word in words {
        add_given(alloc, &mut names, *word)?;
    }
    Ok(names)
}

/// Adds a name that a token gives, where it is not there.
fn add_given(alloc: Global, names: &mut Names, given: Given<'_>) -> Result<(), ParseFault>
    ensures ok { OnOk result (names.new ≡ with_text names.old (text_given given.entry)) }
    ensures memory { OnErr result (result ≡ Err Memory) }
{
    match given {
        Given::Plain(text) => add(names, text),
        Given::Setter(text) => {
            let whole = whole_text(alloc, text, SETTER_MARK)?;
            add(names, whole.as_slice())
        }
        Given::Field(text) => {
            let whole = whole_text(alloc, FIELD_MARK, text)?;
            add(names, whole.as_slice())
        }
    }
}

/// Adds a name, where it is not there. Of more names than have a number there is no memory.
fn add(names: &mut Names, text: &[u8]) -> Result<(), ParseFault>
    ensures ok { OnOk result (names.new ≡ with_text names.old text.now) }
    ensures memory { OnErr result (result ≡ Err Memory) }
{
    if names.len() >= u32::MAX as usize {
        return Err(ParseFault::Memory);
    }
    names.add(text)?;
    Ok(())
}

/// A text that is given in two parts.
fn whole_text(alloc: Global, first: &[u8], second: &[u8]) -> Result<Vec<u8>, ParseFault>
    ensures ok { IfOk result (λ whole. whole.items ≡ first.now ++ second.now) }
    ensures memory { OnErr result (result ≡ Err Memory) }
{
    let mut whole = Vec::from_slice(alloc, first)?;
    whole.extend_from_slice(second)?;
    Ok(whole)
}

/// The numbers of bodies by the places of their blocks, in the order of the text.
fn bodies_of(alloc: Global, places: &[u32]) -> Result<HashMap<u32, u32>, ParseFault>
    ensures ok { IfOk result (λ bodies. AreNumbered places.now bodies) }
    ensures memory { OnErr result (result ≡ Err Memory) }
{
    let mut bodies = HashMap::new(alloc);
    'places: for (number, place) in places.iter().enumerate() {
        add_body(&mut bodies, *place, number)?;
    }
    Ok(bodies)
}

/// Gives a place its number, where it has none. Of more places than have a number there is no memory.
fn add_body(bodies: &mut HashMap<u32, u32>, place: u32, number: usize) -> Result<(), ParseFault>
    ensures ok { OnOk result ((at : ℕ) → number_at bodies.new at ≡ number_or (number_at bodies.old at) (nat_eq place at) number) }
    ensures memory { OnErr result (result ≡ Err Memory) }
{
    if bodies.contains_key(&place) {
        return Ok(());
    }
    let Ok(number) = u32::try_from(number) else {
        return Err(ParseFault::Memory);
    };
    bodies.insert(place, number)?;
    Ok(())
}

/// What stands before the name of an instance variable.
const FIELD_MARK: &[u8] = b"@";
/// What stands behind the name of a method that writes an attribute.
const SETTER_MARK: &[u8] = b"=";
