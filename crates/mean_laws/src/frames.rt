//! Laws of frames.

ghost use Rattle.std.specs.Prelude.{◌≡◌, ℕ, List, Some};
ghost use Rattle.cl_mean.specs.Source.{Source};
ghost use Rattle.cl_mean.specs.Journal.{Frame, bytes_of, frame_in};
ghost use Rattle.mean_laws.specs.Frames.{IsFrameOf};

/// Bytes that are read as a frame are just its bytes.
pub fn read_back()
    ensures { (source : Source) (bytes : List ℕ) (f : Frame) → frame_in source bytes ≡ Some f → bytes_of source f ≡ bytes }
{}

/// The bytes of a frame are read as that frame.
pub fn reads_its_bytes()
    ensures { (source : Source) (f : Frame) → IsFrameOf source f → frame_in source (bytes_of source f) ≡ Some f }
{}
