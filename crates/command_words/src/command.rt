//! What words ask for.

/// The names of the files of two versions and of a history of the old one.
#[derive(Clone, Copy)]
pub struct Files<'a> {
    /// The old source's file.
    pub old: &'a str,
    /// The new source's file.
    pub new: &'a str,
    /// The file of the history of the old source.
    pub history: &'a str,
}

/// A command, with the names of its files and the number of its workers.
#[derive(Clone, Copy)]
pub enum Command<'a> {
    /// `record SOURCE SUITE`
    Record {
        /// The source's file.
        source: &'a str,
        /// The suite's file.
        suite: &'a str,
        /// How many workers run the tests, from 1 to 64.
        workers: usize,
    },
    /// `migrate OLD HISTORY`
    Migrate {
        /// The old source's file.
        old: &'a str,
        /// The file of the history of the old source.
        history: &'a str,
    },
    /// `walk OLD NEW`
    Walk {
        /// The old source's file.
        old: &'a str,
        /// The new source's file.
        new: &'a str,
    },
    /// `select OLD NEW HISTORY`
    Select(Files<'a>),
    /// `rerun OLD NEW HISTORY`
    Rerun {
        /// The files.
        files: Files<'a>,
        /// How many workers run the tests, from 1 to 64.
        workers: usize,
    },
    /// `explain OLD NEW HISTORY TEST`
    Explain {
        /// The files.
        files: Files<'a>,
        /// The name of the test.
        test: &'a str,
    },
    /// `carry OLD NEW HISTORY`
    Carry {
        /// The files.
        files: Files<'a>,
        /// How many workers run the tests, from 1 to 64.
        workers: usize,
    },
    /// `order OLD NEW HISTORY`
    Order {
        /// The files.
        files: Files<'a>,
        /// How many workers count the tests' edges, from 1 to 64.
        workers: usize,
    },
    /// `certify OLD NEW`
    Certify {
        /// The old source's file.
        old: &'a str,
        /// The new source's file.
        new: &'a str,
    },
    /// `check OLD NEW CERTIFICATE`
    Check {
        /// The old source's file.
        old: &'a str,
        /// The new source's file.
        new: &'a str,
        /// The certificate's file.
        certificate: &'a str,
    },
    /// `gen SEED SIZE`
    Gen {
        /// The generator's seed, from 0 to 65,535.
        seed: u32,
        /// How many functions it makes, from 1 to 400.
        size: u32,
    },
}
