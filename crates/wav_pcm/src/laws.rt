//! Laws of the definitions.

ghost use Rattle.std.specs.Prelude.{◌≡◌};
ghost use Rattle.wav_pcm.specs.Heads.{most_data};
ghost use Rattle.wav_pcm.specs.declared.head.TheConstants.{MOST_DATA};
ghost use Rattle.wav_pcm.specs.Laws.{ReadingIsOne, FramesAreThere, MostDataIsCounted, WrittenIsReadBack};

/// Every file is read in one way: as one head, or as one fault.
pub fn reading_is_one()
    ensures { ReadingIsOne }
{}

/// A head that is read has the graph's channels, and all its frames stand in the file.
pub fn frames_are_there()
    ensures { FramesAreThere }
{}

/// `MOST_DATA` is the greatest number of bytes of frames that the head of a file can count.
pub fn most_data_is_counted()
    ensures value { MOST_DATA ≡ most_data }
    ensures most { MostDataIsCounted }
{}

/// What is written of samples of a size is a file that is read, and reads as the same samples.
pub fn written_is_read_back()
    ensures { WrittenIsReadBack }
{}
