//! Ciphers under names, and the calls on them.
ghost use Rattle.std.specs.Prelude.{◌≡◌, ◌<◌, ◌≤◌, [], ◌∷◌, ◌++◌, length, Some, None, Ok, Err, MatchOption, MatchResult};
ghost use Rattle.std.specs.Option.{option_map};
ghost use Rattle.session.specs.State.{find, At, keyed_at, kinds, Shown};
ghost use Rattle.cipher.specs.declared.one_of.OneOf.TheVariants.{First as One};
ghost use Rattle.script.specs.Calls.{making, working, verb_of, args_of};
ghost use Rattle.script.specs.Calls.Making.{triple};
ghost use Rattle.script.specs.Words.{words};
ghost use Rattle.session.specs.Views.{meaning, standing, to_come};
ghost use Rattle.session.specs.Answers.{answer_of};
ghost use Rattle.session.specs.Calls.{Makes, Loads, ByMode, Turned, Codes, Tags, Does};
ghost use Rattle.session.specs.Lines.{Heard};
ghost use Rattle.session.specs.Performed.{Making, restood};

use crate::answer::{Answer, Value};
use crate::entry::Entry;
use crate::fault::Fault;
use crate::standing::Standing;
use crate::texts;
use crate::way::{Deciphering, Enciphering, Way};
use chosen::{Chosen, Keyed, Kind};
use cipher::Triple;
use script::{Call, Make, Unreadable, Work};
use std::alloc::{AllocError, Global};

/// The ciphers that a script has made, in the order in which it made them.
#[derive(Drop)]
pub(crate) struct Ciphers {
    heap: Global,
    // a list: what stands is told in this order, and a map that keeps it is no plainer
    entries: Vec<Entry>,
}

impl Ciphers {
    /// No cipher as yet.
    pub(crate) fn new(heap: Global) -> Ciphers
        ensures { standing result ≡ [] }
    {
        Ciphers {
            heap,
            entries: Vec::new(heap),
        }
    }

    /// The place at which a name stands, if it stands for something.
    fn position(&self, name: &[u8]) -> Option<usize>
        ensures { MatchOption result (find name.now (standing self.now) ≡ None) (λ i. At name.now (standing self.now) i) }
    {
        self.entries
            .iter()
            .position(|entry| entry.name.as_slice() == name)
    }

    /// The cipher that a name stands for, if it stands for one.
    fn named(&self, name: &[u8]) -> Option<&Chosen>
        ensures { option_map (λ c. meaning c.now) result ≡ find name.now (standing self.now) }
    {
        let i = self.position(name)?;
        Some(&self.entries[i].cipher)
    }

    /// The cipher that a name stands for, or that no cipher has the name.
    fn cipher(&self, name: &[u8]) -> Result<&Chosen, Unreadable>
        ensures { MatchResult result
            (λ c. find name.now (standing self.now) ≡ Some (meaning c.now))
            (λ u. (find name.now (standing self.now) ≡ None) × (u ≡ Unreadable.UnknownName)) }
    {
        self.named(name).ok_or(Unreadable::UnknownName)
    }

    /// The keyed cipher that a name stands for, or why there is none.
    fn keyed(&self, name: &[u8]) -> Result<Keyed, Unreadable>
        ensures { MatchResult result (λ k. keyed_at name.now (standing self.now) ≡ Ok (meaning (One k))) (λ u. keyed_at name.now (standing self.now) ≡ Err u) }
    {
        match self.cipher(name)? {
            Chosen::First(keyed) => Ok(*keyed),
            Chosen::Second(_) => Err(Unreadable::NotKeyed),
        }
    }

    /// Three keyed ciphers in a row, or why they cannot be had.
    fn triple(&self, a: &[u8], b: &[u8], c: &[u8]) -> Result<Chosen, Unreadable>
        ensures { Making (standing self.now) (triple a.now b.now c.now) result }
    {
        let first = self.keyed(a)?;
        let second = self.keyed(b)?;
        let third = self.keyed(c)?;
        Ok(Chosen::Second(Triple {
            first,
            second,
            third,
        }))
    }

    /// The cipher that is to be made, or why it cannot be.
    fn made(&self, make: Make<'_>) -> Result<Chosen, Unreadable>
        ensures { Making (standing self.now) (making make.entry) result }
    {
        match make {
            Make::Blowfish => Ok(Chosen::First(chosen::blowfish())),
            Make::Xtea => Ok(Chosen::First(chosen::xtea())),
            Make::Triple(a, b, c) => self.triple(a, b, c),
        }
    }

    /// Puts a name and what it stands for at the end.
    fn join(&mut self, name: &[u8], cipher: Chosen) -> Result<(), AllocError>
        ensures { MatchResult result
            (λ _. standing self.new ≡ standing self.old ++ (name.now, meaning cipher) ∷ [])
            (λ _. standing self.new ≡ standing self.old) }
    {
        let name = Vec::from_slice(self.heap, name)?;
        self.entries.push(Entry { name, cipher })?;
        Ok(())
    }

    /// Makes a cipher under a new name.
    fn make(&mut self, name: &[u8], make: Make<'_>) -> Result<Value, Fault>
        ensures { Makes name.now (making make.entry) (standing self.old) (answer_of result) (standing self.new) }
    {
        if self.named(name).is_some() {
            return Err(Fault::Unreadable(Unreadable::NameTaken));
        }
        // a match, since a `?` copies the whole cipher once more
        let cipher = match self.made(make) {
            Ok(cipher) => cipher,
            Err(why) => return Err(Fault::Unreadable(why)),
        };
        self.join(name, cipher)?;
        Ok(Value::Nothing)
    }

    /// Lets a name that stands for something stand for another cipher.
    fn stand(&mut self, name: &[u8], cipher: Chosen)
        ensures { standing self.new ≡ restood name.now (meaning cipher) (standing self.old) }
    {
        if let Some(i) = self.position(name) {
            self.entries[i].cipher = cipher;
        }
    }

    /// Loads a key into the keyed cipher that a name stands for.
    fn load(&mut self, name: &[u8], key: &[u8]) -> Result<Value, Fault>
        ensures { Loads name.now key.now (standing self.old) (answer_of result) (standing self.new) }
    {
        let cipher = self.keyed(name)?;
        self.reload(name, cipher, key)
    }

    // apart from `load`, so that room for a changed cipher is made only where the name stands for one
    /// Loads a key into a copy of the keyed cipher that a name stands for, and lets the name stand for that.
    fn reload(&mut self, name: &[u8], mut cipher: Keyed, key: &[u8]) -> Result<Value, Fault>
        requires { keyed_at name.now (standing self.now) ≡ Ok (meaning (One cipher)) }
        ensures { Loads name.now key.now (standing self.old) (answer_of result) (standing self.new) }
    {
        chosen::load(&mut cipher, key)?;
        self.stand(name, Chosen::First(cipher));
        Ok(Value::Nothing)
    }

    /// A block or a text through the cipher that a name stands for, either way.
    fn turned<W: Way>(&self, name: &[u8], work: Work<'_>) -> Result<Value, Fault>
        ensures { Turned W.turns (ByMode W.relates) name.now (working work.entry) (standing self.now) (answer_of result) (standing self.now) }
    {
        let cipher = self.cipher(name)?;
        match work {
            Work::Block(block) => Ok(Value::Block(W::block(cipher, block))),
            Work::Text(mode, start, text) => {
                texts::by_mode::<W>(self.heap, cipher, mode, start, text)
            }
        }
    }

    /// The code of the mode of a name.
    fn mode(&self, name: &[u8]) -> Result<Value, Fault>
        ensures { Codes name.now (standing self.now) (answer_of result) (standing self.now) }
    {
        let mode = texts::mode_named(name)?;
        Ok(Value::Code(mode.code()))
    }

    /// The tag of a text, by the cipher that a name stands for.
    fn tag(&self, name: &[u8], text: &[u8]) -> Result<Value, Fault>
        ensures { Tags name.now text.now (standing self.now) (answer_of result) (standing self.now) }
    {
        let cipher = self.cipher(name)?;
        Ok(Value::Block(modes::tag(cipher, text)?))
    }

    /// Carries out the call that a line says. A line without words is passed over.
    pub(crate) fn heed(&mut self, line: &[u8]) -> Option<Answer>
        ensures { Heard (words line.now) (standing self.old) result (standing self.new) }
    {
        match script::read(self.heap, line) {
            Ok(said) => Some(Answer::from(self.perform(said?))),
            Err(why) => Some(Answer::Unreadable(why)),
        }
    }

    /// Carries out a call.
    fn perform(&mut self, call: Call<'_>) -> Result<Value, Fault>
        ensures { Does (verb_of call.entry) (args_of call.entry) (standing self.old) (answer_of result) (standing self.new) }
    {
        match call {
            Call::Cipher(name, make) => self.make(name, make),
            Call::Load(name, key) => self.load(name, key.as_slice()),
            Call::Encipher(name, work) => self.turned::<Enciphering>(name, work),
            Call::Decipher(name, work) => self.turned::<Deciphering>(name, work),
            Call::Mode(name) => self.mode(name),
            Call::Tag(name, text) => self.tag(name, text.as_slice()),
        }
    }

    /// The name at a place and the kind of cipher that it stands for, if so many names were given.
    pub(crate) fn entry(&self, i: usize) -> Option<(&[u8], Kind)>
        ensures { MatchOption result (length (standing self.now) ≤ i) (λ x. (i < length (standing self.now)) × Shown (standing self.now) i x.0.now x.1) }
    {
        let entry = self.entries.get(i)?;
        Some((entry.name.as_slice(), Kind::from(&entry.cipher)))
    }

    /// Each name and the kind of cipher that it stands for.
    pub(crate) fn standing(&self) -> Standing<'_>
        ensures { to_come result ≡ kinds (standing self.now) }
    {
        Standing {
            entries: self.entries.as_slice(),
        }
    }
}
