ghost use Rattle.std.specs.Prelude.{◌≡◌, ◌↔◌, Err, IfErr, IfOk, IsErrAnd, IsOkAnd, drop, map, string_bytes};
ghost use Rattle.std.specs.IoError.{error_kind};
ghost use Rattle.std.specs.Vec.Iter.{into_iter_items};
ghost use Rattle.arena_cli.specs.declared.arguments.TheConstants.{NO_MEMORY};
ghost use Rattle.arena_cli.specs.declared.arguments.NoArguments.TheVariants.{NotUnicode, NoMemory};

use std::alloc::{AllocError, Global};
use std::env::Args;
use std::io;
use std::io::ErrorKind;
use thiserror::Error;

/// Why the program's arguments can't be had.
#[derive(Clone, Copy, Debug, PartialEq, Eq, Error)]
pub enum NoArguments {
    /// One of them isn't UTF-8.
    #[error("an argument isn't UTF-8")]
    NotUnicode,
    /// There was not enough memory.
    #[error("out of memory")]
    NoMemory,
}

/// How a copy of the arguments fails where there was not enough memory.
const NO_MEMORY: ErrorKind = ErrorKind::OutOfMemory;

impl From<io::Error> for NoArguments {
    ghost use Rattle.std.specs.Prelude.{◌≡◌, ◌↔◌};
    ghost use Rattle.std.specs.IoError.{error_kind};
    ghost use Rattle.arena_cli.specs.declared.arguments.TheConstants.{NO_MEMORY};
    ghost use Rattle.arena_cli.specs.declared.arguments.NoArguments.TheVariants.{NoMemory};

    ghost from_gives = { λ error fault. (fault ≡ NoMemory) ↔ (error_kind error ≡ NO_MEMORY) };

    fn from(error: io::Error) -> NoArguments {
        if error.kind() == NO_MEMORY {
            NoArguments::NoMemory
        } else {
            NoArguments::NotUnicode
        }
    }
}

impl From<AllocError> for NoArguments {
    ghost use Rattle.std.specs.Prelude.{◌≡◌};
    ghost use Rattle.arena_cli.specs.declared.arguments.NoArguments.TheVariants.{NoMemory};

    ghost from_gives = { λ _ fault. fault ≡ NoMemory };

    fn from(_error: AllocError) -> NoArguments {
        NoArguments::NoMemory
    }
}

/// All arguments of the program, the first of which is its name.
pub fn arguments_of(alloc: Global, arguments: io::Result<Args>) -> Result<Vec<String>, NoArguments>
    ensures all { IfOk result (λ all. IsOkAnd arguments (λ given. all.items ≡ into_iter_items given)) }
    ensures not_unicode { (result ≡ Err NotUnicode) ↔ IsErrAnd arguments (λ error. error_kind error ≡ NO_MEMORY → ⊥) }
    ensures no_memory { IfErr arguments (λ error. (result ≡ Err NoMemory) ↔ (error_kind error ≡ NO_MEMORY)) }
{
    Ok(arguments?.collect(alloc)?)
}

/// All arguments but the first, which is the program's name.
fn without_name(arguments: &[String]) -> &[String]
    ensures { result.now ≡ drop 1 arguments.now }
{
    match arguments.split_first() {
        Some((_, rest)) => rest,
        None => &[],
    }
}

/// The texts as slices.
#[tactic(auto, using(std::proofs::lemmas::List::take_more))]
fn texts_of(alloc: Global, texts: &[String]) -> Result<Vec<&str>, AllocError>
    ensures { IfOk result (λ slices. map (λ slice. slice.now) slices.items ≡ map string_bytes texts.now) }
{
    let mut slices = Vec::new(alloc);
    for text in texts {
        slices.push(text.as_str())?;
    }
    Ok(slices)
}

// A word that isn't UTF-8 never gets here: it is as any other word that is in no form of the commands.
/// The words of the command: all arguments but the first.
pub fn words_of(alloc: Global, arguments: &[String]) -> Result<Vec<&str>, AllocError>
    ensures { IfOk result (λ words. map (λ word. word.now) words.items ≡ drop 1 (map string_bytes arguments.now)) }
{
    texts_of(alloc, without_name(arguments))
}
