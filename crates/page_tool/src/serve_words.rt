// The words of `serve`.
ghost use Rattle.std.specs.Prelude.{◌≡◌, option_copied, option_map};
ghost use Rattle.page_tool.specs.ServeWords as spec;
ghost use Rattle.page_tool.specs.ServeReading.{option_read, said_read, service_read, word_read};
ghost use Rattle.page_tool.specs.Words.{texts};

use crate::words::{is_option, number_in};

/// The most workers.
const MAX_WORKERS: u32 = 16;

/// The most links of a worker that words can ask for.
const MAX_LINKS: u32 = 1_000_000;

/// How many links a worker serves where no words say it.
const LINKS_UNSAID: u64 = 18_446_744_073_709_551_615;

/// How to serve: `serve DIR ADDR --workers N [--links K]`.
#[derive(Clone, Copy)]
pub struct Service<'a> {
    /// The directory of the pages.
    pub dir: &'a str,
    /// The address to serve them at.
    pub address: &'a str,
    /// How many workers there are.
    pub workers: u32,
    /// How many links each of them serves at most.
    pub links: u64,
}

// An option of `serve`.
#[derive(Clone, Copy)]
enum ServeOption {
    Workers,
    Links,
}

// What a word of `serve` is.
#[derive(Clone, Copy)]
enum ServeWord<'a> {
    // An option, whose value is the next word.
    Awaiting(ServeOption),
    // An option with its value.
    Giving(ServeOption, &'a [u8]),
    // A word that could be another option.
    Unknown,
    Plain,
}

// What words have said, and the option whose value is the next word.
#[derive(Clone, Copy)]
struct ServeSaid<'a> {
    dir: Option<&'a str>,
    address: Option<&'a str>,
    workers: Option<u32>,
    links: Option<u32>,
    awaited: Option<ServeOption>,
}

/// Whether the first word is `serve`: `run_files` may be asked only where it is not.
pub fn begins_serve(words: &[String]) -> bool
    ensures { result ≡ spec.begins_serve (texts words.now) }
{
    match words.first() {
        Some(name) => name.as_str() == "serve",
        None => false,
    }
}

/// How to serve, if these are the words of `serve`.
pub fn read_service<'a>(words: &'a [String]) -> Option<Service<'a>>
    ensures { option_map service_read result ≡ spec.service_of (texts words.now) }
{
    let (name, words) = words.split_first()?;
    if name.as_str() == "serve" {
        service_in(words)
    } else {
        None
    }
}

// How to serve, if these are its words after the name.
fn service_in<'a>(words: &'a [String]) -> Option<Service<'a>>
    ensures { option_map service_read result ≡ spec.service_in (texts words.now) }
{
    let said = read_words(words)?;
    said.service()
}

// What all words say.
fn read_words<'a>(words: &'a [String]) -> Option<ServeSaid<'a>>
    ensures { option_map said_read result ≡ spec.said_after spec.nothing_said (texts words.now) }
{
    let mut said = ServeSaid {
        dir: None,
        address: None,
        workers: None,
        links: None,
        awaited: None,
    };
    for word in words {
        said = match said.with_word(word.as_str()) {
            Some(said) => said,
            None => return None,
        };
    }
    Some(said)
}

impl<'a> ServeSaid<'a> {
    // What is said with one more word, if it has a place.
    fn with_word(self, word: &'a str) -> Option<ServeSaid<'a>>
        ensures { option_map said_read result ≡ spec.saying_word (said_read self.entry)
            (said_read self.entry).awaited word.entry.now }
    {
        match self.awaited {
            Some(option) => self.with_value(option, word.as_bytes()),
            None => self.with_next(word),
        }
    }

    fn with_next(self, word: &'a str) -> Option<ServeSaid<'a>>
        ensures { option_map said_read result ≡ spec.saying (said_read self.entry)
            (spec.serve_word word.entry.now) word.entry.now }
    {
        match serve_word(word) {
            ServeWord::Awaiting(option) => Some(ServeSaid {
                awaited: Some(option),
                ..self
            }),
            ServeWord::Giving(option, value) => self.with_value(option, value),
            ServeWord::Unknown => None,
            ServeWord::Plain => self.with_plain(word),
        }
    }

    fn with_value(self, option: ServeOption, value: &[u8]) -> Option<ServeSaid<'a>>
        ensures { option_map said_read result
            ≡ spec.saying_value (said_read self.entry) (option_read option) value.now }
    {
        match option {
            ServeOption::Workers => self.with_workers(value),
            ServeOption::Links => self.with_links(value),
        }
    }

    fn with_workers(self, value: &[u8]) -> Option<ServeSaid<'a>>
        ensures { option_map said_read result
            ≡ spec.saying_value (said_read self.entry) spec.option_workers value.now }
    {
        if self.workers.is_some() {
            return None;
        }
        let workers = number_in(MAX_WORKERS, value)?;
        Some(ServeSaid {
            workers: Some(workers),
            awaited: None,
            ..self
        })
    }

    fn with_links(self, value: &[u8]) -> Option<ServeSaid<'a>>
        ensures { option_map said_read result
            ≡ spec.saying_value (said_read self.entry) spec.option_links value.now }
    {
        if self.links.is_some() {
            return None;
        }
        let links = number_in(MAX_LINKS, value)?;
        Some(ServeSaid {
            links: Some(links),
            awaited: None,
            ..self
        })
    }

    // The first of the plain words is the directory, and the second the address.
    fn with_plain(self, word: &'a str) -> Option<ServeSaid<'a>>
        ensures { option_map said_read result
            ≡ spec.saying_plain (said_read self.entry) (said_read self.entry).dir word.entry.now }
    {
        if self.dir.is_none() {
            return Some(ServeSaid {
                dir: Some(word),
                ..self
            });
        }
        if self.address.is_none() {
            return Some(ServeSaid {
                address: Some(word),
                ..self
            });
        }
        None
    }

    // How to serve, if all is said.
    fn service(self) -> Option<Service<'a>>
        ensures { option_map service_read result ≡ spec.service_said (said_read self.entry) }
    {
        if self.awaited.is_some() {
            return None;
        }
        let dir = self.dir?;
        let address = self.address?;
        let workers = self.workers?;
        let links = match self.links {
            Some(links) => u64::from(links),
            None => LINKS_UNSAID,
        };
        Some(Service {
            dir,
            address,
            workers,
            links,
        })
    }
}

// What a word is.
fn serve_word<'a>(word: &'a str) -> ServeWord<'a>
    ensures { word_read result ≡ spec.serve_word word.entry.now }
{
    if word == "--workers" {
        return ServeWord::Awaiting(ServeOption::Workers);
    }
    if word == "--links" {
        return ServeWord::Awaiting(ServeOption::Links);
    }
    if let Some(value) = behind_mark(b"--workers=", word.as_bytes()) {
        return ServeWord::Giving(ServeOption::Workers, value);
    }
    if let Some(value) = behind_mark(b"--links=", word.as_bytes()) {
        return ServeWord::Giving(ServeOption::Links, value);
    }
    if is_option(word) {
        ServeWord::Unknown
    } else {
        ServeWord::Plain
    }
}

// What stands in a word behind a mark with which it begins.
fn behind_mark<'a>(mark: &[u8], word: &'a [u8]) -> Option<&'a [u8]>
    ensures { option_copied result ≡ spec.behind_mark mark.now word.entry.now }
{
    word.strip_prefix(mark)
}
