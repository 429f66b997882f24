//! How the methods of a class are judged.
ghost use Rattle.std.specs.Prelude.{◌≡◌};
ghost use Rattle.classfile.specs.CodeMethods.{judges_dynamic};
ghost use Rattle.classfile.specs.Versions.{judged_versions, known_versions};

use crate::versions::Versions;

/// How the methods of a class are judged.
#[derive(Clone, Copy, Debug, PartialEq, Eq)]
pub enum Profile {
    /// `invokedynamic` and dynamic constants are refused. Classes have the versions of Java SE 7 to 17.
    Default,
    /// They are judged as well (JVMS 4.4.10, 4.10.1.9).
    Dynamic,
    /// They are judged, and classes have the versions that Java SE of this number reads.
    Release(u8),
}

impl Profile {
    /// Whether `invokedynamic` and dynamic constants are judged.
    pub fn judges_dynamic(self) -> bool
        ensures { result ≡ judges_dynamic self }
    {
        match self {
            Profile::Default => false,
            Profile::Dynamic | Profile::Release(_) => true,
        }
    }

    /// The versions of classes that are judged (JVMS 4.1): 51 to 61, or from 50 on as the release has them.
    pub fn judged_versions(self) -> Versions
        ensures { result ≡ judged_versions self }
    {
        match self {
            Profile::Default | Profile::Dynamic => Versions::Java7To17,
            Profile::Release(number) => Versions::Release { least: 50, number },
        }
    }

    /// The versions of classes that are read, and not judged, as those that others refer to (JVMS 4.1): 51 to 61, or from
    /// 45 on as the release has them.
    pub fn known_versions(self) -> Versions
        ensures { result ≡ known_versions self }
    {
        match self {
            Profile::Default | Profile::Dynamic => Versions::Java7To17,
            Profile::Release(number) => Versions::Release { least: 45, number },
        }
    }
}
