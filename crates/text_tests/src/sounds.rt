//! What no clause says: files in their bytes, and the first fault of files that are cut or altered.

ghost use Rattle.std.specs.Prelude.{◌≤◌};

use gh_outside::{Failed, Folder, MemoryFolder};
use graph_model::List;
use std::alloc::AllocError;
use std::test::Fail;
use wav_pcm::{
    Head, HeadFault, WavFault, frame_bytes, head_bytes, put_frames, read_frames, read_head,
};

/// Samples 100, -200, 300: mono, 48,000 Hz, 16 bits.
const FILE: &[u8; 50] =
    b"RIFF\x2a\0\0\0WAVEfmt \x10\0\0\0\x01\0\x01\0\x80\xbb\0\0\0\x77\x01\0\x02\0\x10\0data\x06\0\0\0\x64\0\x38\xff\x2c\x01";

const SAMPLES: [i64; 3] = [100 << 16, -200 << 16, 300 << 16];

const HEAD: Head = Head {
    channels: 1,
    rate: 48_000,
    bits: 16,
    frames: 3,
    from: 44,
};

/// One frame of stereo of 24 bits: an extensible format, a LIST of 5 bytes with its pad byte, and data.
const EXTENSIBLE_FILE: &[u8; 88] =
    b"RIFF\x50\0\0\0WAVEfmt \x28\0\0\0\xfe\xff\x02\0\x80\xbb\0\0\0\x65\x04\0\x06\0\x18\0\x16\0\x18\0\x03\0\0\0\x01\0\0\0\0\0\x10\0\x80\0\0\xaa\0\x38\x9b\x71LIST\x05\0\0\0INFOx\0data\x06\0\0\0\x01\x02\x03\xff\xff\xff";

const EXTENSIBLE_HEAD: Head = Head {
    channels: 2,
    rate: 48_000,
    bits: 24,
    frames: 1,
    from: 82,
};

/// A folder with these bytes as `a.wav`, whose calls with these numbers fail.
fn folder_of(rt: &HostRuntime, bytes: &[u8], listed: &[u64]) -> Result<MemoryFolder, AllocError> {
    let fails = List::from_slice(rt.alloc(), listed)?;
    let mut folder = MemoryFolder::new(rt.alloc(), fails)?;
    folder.put_file("a.wav", bytes)?;
    Ok(folder)
}

/// What is wrong with these bytes as a file for so many channels.
fn fault_of(rt: &HostRuntime, bytes: &[u8], graph: u32) -> Result<String, AllocError>
    requires least { 1 ≤ graph }
    requires most { graph ≤ 32 }
{
    let mut folder = folder_of(rt, bytes, &[])?;
    match read_head(&mut folder, "a.wav", graph) {
        Ok(_) => String::from_str(rt.alloc(), "nothing"),
        Err(HeadFault::Wav(fault)) => format!(in rt.alloc(); "{fault}"),
        Err(HeadFault::Failed) => String::from_str(rt.alloc(), "a failure"),
    }
}

#[test]
fn reads_three_frames(rt: HostRuntime) -> Result<(), Fail> {
    let mut folder = folder_of(&rt, FILE, &[])?;
    let mut bytes = [0; 6];
    let mut samples = [0; 3];
    assert_eq!(rt; read_head(&mut folder, "a.wav", 1), Ok(HEAD));
    assert_eq!(rt;
        read_frames(&mut folder, "a.wav", &HEAD, 0, &mut bytes, &mut samples),
        Ok(())
    );
    assert_eq!(rt; samples, SAMPLES);
    Ok(())
}

#[test]
fn an_extensible_file(rt: HostRuntime) -> Result<(), Fail> {
    let mut samples = [0; 2];
    let mut folder = folder_of(&rt, EXTENSIBLE_FILE, &[])?;
    assert_eq!(rt; read_head(&mut folder, "a.wav", 2), Ok(EXTENSIBLE_HEAD));
    assert_eq!(rt;
        read_frames(
            &mut folder,
            "a.wav",
            &EXTENSIBLE_HEAD,
            0,
            &mut [0; 6],
            &mut samples
        ),
        Ok(())
    );
    assert_eq!(rt; samples, [0x0302_0100, -0x100]);
    Ok(())
}

/// So many bytes of the extensible file, and what is wrong with them.
const CUTS: &str = "\
0 > not a WAVE file
11 > not a WAVE file
12 > no format
59 > no format
60 > no data
81 > no data
82 > 6 bytes wanted, 0 there
87 > 6 bytes wanted, 5 there
88 > nothing";

#[test]
fn an_extensible_file_cut(rt: HostRuntime) -> Result<(), Fail> {
    for case in CUTS.lines() {
        let (length, fault) = case.split_once(" > ").unwrap_or(("", ""));
        let bytes = EXTENSIBLE_FILE
            .get(..length.parse().unwrap_or(0))
            .unwrap_or(&[]);
        assert_eq!(rt; fault_of(&rt, bytes, 2)?.as_str(), fault, "{case}");
    }
    Ok(())
}

/// Where bytes are put into the file, those bytes, and what is then the first fault.
const CHANGES: &str = "\
8 > AVI  > not a WAVE file
12 > JUNK > no format
16 > \x11\0\0\0 > format of size 17
20 > \x03\0\x01\0 > tag 3 with 16 bits
24 > \x41\x42\x0f\0 > rate 1000001
36 > JUNK > no data
40 > \x0c\0\0\0 > 12 bytes wanted, 6 there
40 > \x05\0\0\0 > 5 bytes in frames of 2";

/// The file with a text in it.
fn with(at: usize, text: &str) -> [u8; 50] {
    let mut file = *FILE;
    for (byte, new) in file.iter_mut().skip(at).zip(text.bytes()) {
        *byte = new;
    }
    file
}

#[test]
fn the_first_fault(rt: HostRuntime) -> Result<(), Fail> {
    for case in CHANGES.lines() {
        let mut parts = case.split(" > ");
        let at = parts.next().unwrap_or("").parse().unwrap_or(0);
        let file = with(at, parts.next().unwrap_or(""));
        let fault = parts.next().unwrap_or("");
        assert_eq!(rt; fault_of(&rt, &file, 1)?.as_str(), fault, "{case}");
    }
    // Wrong channels hide that there are no data.
    assert_eq!(rt; fault_of(&rt, &FILE[..36], 2)?.as_str(), "1 channels for 2");
    let long = format!(in rt.alloc(); "{}", WavFault::TooLong { bytes: 7 })?;
    assert_eq!(rt; long.as_str(), "7 bytes of output");
    Ok(())
}

/// What is said of these bytes as a file for so many channels.
fn head_of(
    rt: &HostRuntime,
    bytes: &[u8],
    graph: u32,
) -> Result<Result<Head, HeadFault>, AllocError>
    requires least { 1 ≤ graph }
    requires most { graph ≤ 32 }
{
    let mut folder = folder_of(rt, bytes, &[])?;
    Ok(read_head(&mut folder, "a.wav", graph))
}

#[test]
fn other_files_that_are_read(rt: HostRuntime) -> Result<(), Fail> {
    // A size that was left open, and 7 bytes.
    let mut open = [9; 51];
    open[..50].copy_from_slice(FILE);
    open[40..44].fill(0xff);
    assert_eq!(rt; head_of(&rt, &open, 1)?, Ok(HEAD));
    // 8 bits, one byte, and its pad byte.
    let mut eight = *FILE;
    eight[34] = 8;
    eight[40] = 5;
    let head = Head {
        bits: 8,
        frames: 5,
        ..HEAD
    };
    assert_eq!(rt; head_of(&rt, &eight, 1)?, Ok(head));
    // Tag 1 in a format of 40 bytes, whose extension is not asked.
    let mut plain = *EXTENSIBLE_FILE;
    plain[20..22].copy_from_slice(b"\x01\0");
    plain[38] = 7;
    assert_eq!(rt; head_of(&rt, &plain, 2)?, Ok(EXTENSIBLE_HEAD));
    Ok(())
}

#[test]
fn fails_where_the_folder_does(rt: HostRuntime) -> Result<(), Fail> {
    // The length, the start, three chunks, the format and its extension.
    for number in 0..7 {
        let mut folder = folder_of(&rt, EXTENSIBLE_FILE, &[number])?;
        assert_eq!(rt; read_head(&mut folder, "a.wav", 2), Err(HeadFault::Failed));
        assert_eq!(rt; folder.read_faults(), 1);
    }
    let mut folder = folder_of(&rt, FILE, &[1, 2])?;
    let (mut bytes, mut samples) = ([0; 6], [0; 3]);
    assert_eq!(rt; read_head(&mut folder, "b.wav", 1), Err(HeadFault::Failed));
    assert_eq!(rt;
        read_frames(&mut folder, "a.wav", &HEAD, 0, &mut bytes, &mut samples),
        Err(Failed)
    );
    assert_eq!(rt;
        put_frames(&mut folder, "a.wav", 16, &SAMPLES, &mut bytes),
        Err(Failed)
    );
    Ok(())
}

#[test]
fn writes_three_frames(rt: HostRuntime) -> Result<(), Fail> {
    let mut folder = folder_of(&rt, &[], &[])?;
    folder.make_room("a.wav", 50)?;
    let mut head = [0; 44];
    head_bytes(1, 48_000, 16, 3, &mut head);
    assert_eq!(rt; folder.append("a.wav", &head), Ok(()));
    assert_eq!(rt;
        put_frames(&mut folder, "a.wav", 16, &SAMPLES, &mut [0; 6]),
        Ok(())
    );
    assert_eq!(rt; folder.file("a.wav"), Some(FILE.as_slice()));
    Ok(())
}

#[test]
fn writes_each_size(rt: HostRuntime) {
    let samples = [0x0102_0380, -0x0102_0380];
    let mut sizes = ([0; 2], [0; 4], [0; 6], [0; 8]);
    frame_bytes(8, &samples, &mut sizes.0);
    frame_bytes(16, &samples, &mut sizes.1);
    frame_bytes(24, &samples, &mut sizes.2);
    frame_bytes(32, &samples, &mut sizes.3);
    assert_eq!(rt; sizes.0, [0x81, 0x7f]);
    assert_eq!(rt; sizes.1, [0x02, 0x01, 0xfe, 0xfe]);
    assert_eq!(rt; sizes.2, [0x04, 0x02, 0x01, 0xfd, 0xfd, 0xfe]);
    assert_eq!(rt; sizes.3, [0x80, 0x03, 0x02, 0x01, 0x80, 0xfc, 0xfd, 0xfe]);
}
