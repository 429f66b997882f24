//! The commands of the program.
use classfile::Profile;

/// The form in which an answer is written.
#[derive(Clone, Copy, Debug, PartialEq, Eq)]
pub enum Form {
    /// Words for people.
    Plain,
    /// `--json`: objects of JSON (RFC 8259), each on a line of its own.
    Json,
}

/// A question about class files.
#[derive(Clone, Copy, Debug, PartialEq, Eq)]
pub enum Command {
    /// `check FILE`: whether the file is a class file that is well formed, of a version that the profile reads.
    Check(Form, Profile),
    /// `show FILE`: what the class file holds.
    Show(Profile),
    /// `verify CLASS KNOWN...`: the verdicts on the methods of the class in the first file, which may refer to the
    /// classes in the others; with `--dynamic` by [`Profile::Dynamic`].
    Verify(Form, Profile),
    /// `explain CLASS KNOWN...`: the methods that `verify` refuses, and for each the meaning of its number, the
    /// instruction and the frames there; with `--dynamic` by [`Profile::Dynamic`].
    Explain(Form, Profile),
    /// `play CLASS...`: whether the classes in the files may run together, each method that has code verified; with
    /// `--dynamic` by [`Profile::Dynamic`].
    Play(Form, Profile),
    /// `verify-each CLASS... --known KNOWN...`: the verdicts on the methods of each of the classes in the first so many
    /// files, which may refer to one another and to the classes in the others; with `--dynamic` by
    /// [`Profile::Dynamic`].
    VerifyEach {
        form: Form,
        profile: Profile,
        classes: usize,
    },
}
