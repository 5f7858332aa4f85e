ghost use Rattle.std.specs.Prelude.{◌≡◌, ◌<◌, ◌≤◌, ◌^◌, length};
ghost use Rattle.leon_main.specs.Files.{file_word, limit_of};

/// A file of a run. The first three are read in this order, and then the schedule by which the run is played, or the report of it that
/// is audited.
#[derive(Clone, Copy, Debug, PartialEq, Eq)]
pub enum RunFile {
    Configuration,
    Image,
    Script,
    Schedule,
    Report,
}

impl RunFile {
    /// The word that names the file in a line.
    pub fn word(self) -> &'static [u8]
        ensures word { result.now ≡ file_word self }
        ensures short { length result.now ≤ 20 }
    {
        match self {
            RunFile::Configuration => b"configuration",
            RunFile::Image => b"image",
            RunFile::Script => b"script",
            RunFile::Schedule => b"schedule",
            RunFile::Report => b"report",
        }
    }

    /// The most bytes that the file may have.
    pub fn limit(self) -> u64
        ensures limit { result ≡ limit_of self }
        ensures fits { result < 2 ^ 32 }
    {
        match self {
            RunFile::Configuration => 1_048_576,
            RunFile::Image => 67_108_864,
            RunFile::Script | RunFile::Schedule => 16_777_216,
            RunFile::Report => 536_870_912,
        }
    }
}
