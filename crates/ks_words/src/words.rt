ghost use Rattle.std.specs.Prelude.{◌≡◌, IfOk, map, option_copied};
ghost use Rattle.ks_words.specs.Words.{IsInRange, address_in, file_in, folder_in, log_in, serving_in, words_of};

use crate::commands::{
    read_check, read_drill, read_password, read_rotate, read_serve, read_setup, read_talk,
};
use ks_base::{Memory, Text};
use std::alloc::{AllocError, Global};

/// What a command works on.
pub struct Places {
    /// The path of the opening file.
    pub file: Option<Text>,
    /// The path of the folder of the keys.
    pub folder: Option<Text>,
    /// The address to listen at, as it was said: the program finds the socket that it names.
    pub address: Option<Text>,
    /// How many desks serve.
    pub workers: u32,
    /// The path of the log of requests, where there is to be one; `-` is the standard error.
    pub log: Option<Text>,
}

impl Drop for Places {
    fn drop(self) {
        let Places {
            file: _,
            folder: _,
            address: _,
            workers: _,
            log: _,
        } = self;
    }
}

/// A command of the program.
#[derive(Drop)]
pub enum Words {
    /// `check`: tokens are judged by a key and the time alone.
    Check,
    /// `talk FILE FOLDER`: one connection is served, by the first desk alone, so there is no address and one
    /// worker.
    Talk(Places),
    /// `serve FILE FOLDER ADDRESS [--workers N] [--connections N] [--log FILE]`: the connections to an address
    /// are served, by as many desks as there are workers, from 1 to 32; where that is not said there are 4. The
    /// number is how many connections each desk serves, from 0 to 1,000,000; with 0, as where it is not said,
    /// they are not counted. Requests are told in the log, where one is named.
    Serve(Places, u64),
    /// `setup FOLDER`: the keys of an empty folder are made.
    Setup(Places),
    /// `rotate FOLDER [--max N]`: the keys of a folder are rotated, and at most N of them are left, from 2
    /// to 32. Where N is not said it is 3, as in Keystone.
    Rotate(Places, u32),
    /// `password [--rounds N]`: the record of a password is made, derived by so many rounds, from 1 to 100,000;
    /// where that is not said there are 10,000.
    Password(u32),
    /// `drill START COUNT`: calls are made to an identity of its own. Its members are as many as the second number
    /// says, from 1 to 2,000, and have their roles by the first, which is at most 1,000,000.
    Drill(u64, u32),
    /// The words are no command's.
    Usage,
}

impl Words {
    /// The path of the opening file, where the command names one.
    pub fn file(&self) -> Option<&Text>
        ensures { option_copied result ≡ file_in self.now }
    {
        match self {
            Words::Talk(places) => places.file.as_ref(),
            Words::Serve(places, _) => places.file.as_ref(),
            Words::Check => None,
            Words::Setup(_) => None,
            Words::Rotate(_, _) => None,
            Words::Password(_) => None,
            Words::Drill(_, _) => None,
            Words::Usage => None,
        }
    }

    /// The path of the folder of the keys, where the command names one.
    pub fn folder(&self) -> Option<&Text>
        ensures { option_copied result ≡ folder_in self.now }
    {
        match self {
            Words::Talk(places) => places.folder.as_ref(),
            Words::Serve(places, _) => places.folder.as_ref(),
            Words::Setup(places) => places.folder.as_ref(),
            Words::Rotate(places, _) => places.folder.as_ref(),
            Words::Check => None,
            Words::Password(_) => None,
            Words::Drill(_, _) => None,
            Words::Usage => None,
        }
    }

    /// What connections are served with, where the command listens at an address.
    pub fn serving(&self) -> Option<&Places>
        ensures { option_copied result ≡ serving_in self.now }
    {
        match self {
            Words::Serve(places, _) => Some(places),
            Words::Check => None,
            Words::Talk(_) => None,
            Words::Setup(_) => None,
            Words::Rotate(_, _) => None,
            Words::Password(_) => None,
            Words::Drill(_, _) => None,
            Words::Usage => None,
        }
    }

    /// The address to listen at, where the command names one.
    pub fn address(&self) -> Option<&Text>
        ensures { option_copied result ≡ address_in self.now }
    {
        self.serving()?.address.as_ref()
    }

    /// The path of the log of requests, where the command names one.
    pub fn log(&self) -> Option<&Text>
        ensures { option_copied result ≡ log_in self.now }
    {
        self.serving()?.log.as_ref()
    }
}

/// The command that these words give, the program's own name not among them.
///
/// The first word is the command's name. The others are its positional words in the order in which the
/// command has them, and its options, each at most once, as `--name N` or `--name=N`. A word that begins
/// with `-` and names no option of the command is refused, so `--`, `-h` and `--help` are, and `-` alone: the
/// log of `serve` goes to the standard error by `--log=-`. What no command takes is `Words::Usage`.
pub fn read_words(alloc: Global, words: &[Text]) -> Result<Words, Memory>
    ensures words { IfOk result (λ read. read ≡ words_of words.now) }
    ensures range { IfOk result IsInRange }
{
    let words = borrowed(alloc, words)?;
    let words = words.as_slice();
    let Some(name) = words.first() else {
        return Ok(Words::Usage);
    };
    if *name == "check" {
        return read_check(alloc, words);
    }
    if *name == "talk" {
        return read_talk(alloc, words);
    }
    if *name == "setup" {
        return read_setup(alloc, words);
    }
    if *name == "rotate" {
        return read_rotate(alloc, words);
    }
    if *name == "serve" {
        return read_serve(alloc, words);
    }
    if *name == "password" {
        return read_password(alloc, words);
    }
    if *name == "drill" {
        return read_drill(alloc, words);
    }
    Ok(Words::Usage)
}

fn borrowed<'a>(alloc: Global, words: &'a [Text]) -> Result<Vec<&'a str>, AllocError>
    ensures { IfOk result (λ made. map (λ word. word.now) made.items ≡ words.entry.now) }
{
    let mut made = Vec::with_capacity(alloc, words.len())?;
    for word in words {
        made.push(word.as_str())?;
    }
    Ok(made)
}
