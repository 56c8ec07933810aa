// One option of the command line, by its name.
// Each is given once at most.
ghost use Rattle.std.specs.Prelude.{◌≡◌, true, Some, None, Ok, Err, is_some, vec_items, IfOk, IfErr, OnErr};
ghost use Rattle.options.specs.Choices.{choice_of, formed, in_hex, name_said, lone_word, named};
ghost use Rattle.fields.specs.Hexadecimal.{hex_bytes};
ghost use Rattle.values.specs.Decimals.{decimal_said};
ghost use Rattle.fields.specs.Readings.{Reads};
ghost use Rattle.values.specs.Mistakes.{is_memory};
ghost use Rattle.values.specs.declared.error.Mistake.TheVariants.{RepeatedOption};

use crate::choice::{Chosen, Make, Name};
use fields::digits::read_field;
use std::alloc::Global;
use std::str::FromStr;
use values::decimal::read_decimal;
use values::error::Mistake;
use values::runs::read_runs;

impl FromStr for Name {
    type Err = Mistake;

    ghost use Rattle.options.specs.Choices.{known, name_said};

    ghost from_str_gives = { λ word r. r ≡ known (name_said word) };

    fn from_str(word: &str) -> Result<Name, Mistake> {
        match word {
            "--layout" => Ok(Name::Layout),
            "--medium" => Ok(Name::Medium),
            "--blocks" => Ok(Name::Blocks),
            "--bad" => Ok(Name::Bad),
            _ => Err(Mistake::UnknownOption),
        }
    }
}

impl FromStr for Make {
    type Err = Mistake;

    ghost use Rattle.options.specs.Choices.{formed, make_said};

    ghost from_str_gives = { λ word r. r ≡ formed (make_said word) };

    fn from_str(word: &str) -> Result<Make, Mistake> {
        match word {
            "straight" => Ok(Make::Straight),
            "turning" => Ok(Make::Turning),
            _ => Err(Mistake::MalformedValue),
        }
    }
}

// Why a last word that no value follows is a mistake.
pub(crate) fn lone(word: &str) -> Mistake
    ensures { result ≡ lone_word (name_said word.now) }
{
    match word.parse::<Name>() {
        Ok(_) => Mistake::MissingValue,
        Err(unknown) => unknown,
    }
}

// The bytes of a layout.
fn read_layout(heap: Global, value: &str) -> Result<Vec<u8>, Mistake>
    ensures { Reads is_memory vec_items result (in_hex (hex_bytes value.now)) }
{
    Ok(read_field(heap, value.as_bytes())?)
}

// A number of blocks.
fn read_blocks(value: &str) -> Result<u32, Mistake>
    ensures { result ≡ formed (decimal_said value.now) }
{
    read_decimal(value.as_bytes()).ok_or(Mistake::MalformedValue)
}

// Sets what was not given before to what is read then; what was given is kept, and nothing is read.
fn set_once<T: Drop, F: FnOnce() -> Result<T, Mistake>>(
    slot: &mut Option<T>,
    read: F,
) -> Result<(), Mistake>
    requires { F.IsAlwaysCallable read }
    ensures repeated { is_some slot.old ≡ true → result ≡ Err RepeatedOption }
    ensures unread { slot.old ≡ None → IfErr result (λ m. F.post read (Err m)) }
    ensures set { IfOk result (λ _. (v : T) × F.post read (Ok v) × (slot.old ≡ None) × (slot.new ≡ Some v)) }
    ensures kept { OnErr result (slot.new ≡ slot.old) }
{
    if slot.is_some() {
        return Err(Mistake::RepeatedOption);
    }
    *slot = Some(read()?);
    Ok(())
}

impl Chosen {
    // An argument and the one behind it.
    pub(crate) fn take(&mut self, heap: Global, word: &str, value: &str) -> Result<(), Mistake>
        ensures said { Reads is_memory (λ _. choice_of self.new) result (named (name_said word.now) value.now (choice_of self.old)) }
        ensures kept { OnErr result (choice_of self.new ≡ choice_of self.old) }
    {
        match word.parse()? {
            Name::Layout => set_once(&mut self.layout, || read_layout(heap, value)),
            Name::Medium => set_once(&mut self.make, || value.parse()),
            Name::Blocks => set_once(&mut self.blocks, || read_blocks(value)),
            Name::Bad => set_once(&mut self.runs, || read_runs(heap, value.as_bytes())),
        }
    }
}
