use super::*;
use std::fs::{self, Files};
use std::process::Abort;
use std::test::Fail;
use xid::Refusal;

/// Makes a folder anew, for the files of one test.
fn make(rt: &HostRuntime, folder: &str) -> Result<(), Fail> {
    let _ = fs::remove_dir_all(rt, folder);
    fs::create_dir(rt, folder)?;
    Ok(())
}

/// The record of a name.
fn opened(rt: HostRuntime, path: &str) -> Result<FileRecord, Refusal> {
    Ok(FileRecord::open(rt, path)?)
}

/// The file and the record hold these bytes.
fn holds<R: Abort + Files + AllocGlobal>(
    rt: &R,
    path: &str,
    record: &mut FileRecord,
    bytes: &[u8],
) -> Result<(), Fail> {
    assert_eq!(rt; fs::read(rt, path)?.as_slice(), bytes);
    match record.read(rt.alloc()) {
        Ok(read) => assert_eq!(rt; read.as_slice(), bytes),
        Err(_) => assert!(rt; false),
    }
    Ok(())
}

/// Cuts the record to so many bytes, which it has.
fn cut<R: Abort + AllocGlobal>(rt: &R, record: &mut FileRecord, len: usize) {
    match record.read(rt.alloc()) {
        Ok(bytes) => {
            assert!(rt; len <= bytes.len());
            assert_eq!(rt; record.cut(len), Ok(()));
        }
        Err(_) => assert!(rt; false),
    }
}

#[test]
fn a_record_in_a_file(rt: HostRuntime) -> Result<(), Fail> {
    make(&rt, "record_test")?;
    let path = "record_test/a.rec";
    let mut record = opened(rt, path)?;
    holds(&rt, path, &mut record, b"")?;
    assert_eq!(&rt; record.append(b"abc"), Ok(()));
    assert_eq!(&rt; record.append(b""), Ok(()));
    assert_eq!(&rt; record.kept(), 0);
    assert_eq!(&rt; record.append(b"defg"), Ok(()));
    assert_eq!(&rt; record.kept(), 4);
    assert!(&rt; !record.is_armed());
    holds(&rt, path, &mut record, b"abcdefg")?;
    cut(&rt, &mut record, 5);
    assert_eq!(&rt; record.append(b"x"), Ok(()));
    holds(&rt, path, &mut record, b"abcdex")?;
    drop(record);
    let mut again = opened(rt, path)?;
    holds(&rt, path, &mut again, b"abcdex")?;
    assert_eq!(&rt; again.faults(), 0);
    fs::remove_dir_all(&rt, "record_test")?;
    Ok(())
}

#[test]
fn a_replacement_in_a_file(rt: HostRuntime) -> Result<(), Fail> {
    make(&rt, "replacement_test")?;
    let path = "replacement_test/a.rec";
    let new_path = "replacement_test/a.rec.new";
    fs::write(&rt, path, b"old".as_slice())?;
    // What a replacement that was stopped left.
    fs::write(&rt, new_path, b"far longer".as_slice())?;
    let mut record = opened(rt, path)?;
    holds(&rt, path, &mut record, b"old")?;
    assert_eq!(&rt; record.replace(b"next"), Ok(()));
    assert!(&rt; !fs::exists(&rt, new_path)?);
    assert_eq!(&rt; record.append(b"!"), Ok(()));
    holds(&rt, path, &mut record, b"next!")?;
    // The new file is locked as the old one was.
    assert!(&rt; FileRecord::open(rt, path).is_err());
    assert_eq!(&rt; record.faults(), 0);
    fs::remove_dir_all(&rt, "replacement_test")?;
    Ok(())
}

#[test]
fn one_process_at_a_time(rt: HostRuntime) -> Result<(), Fail> {
    make(&rt, "lock_test")?;
    let path = "lock_test/a.rec";
    let record = opened(rt, path)?;
    assert!(&rt; matches!(FileRecord::open(rt, path), Err(RecordError::Fault)));
    drop(record);
    assert!(&rt; FileRecord::open(rt, path).is_ok());
    // A folder is no record, and none is made in a folder that isn't there.
    assert!(&rt; FileRecord::open(rt, "lock_test").is_err());
    assert!(&rt; FileRecord::open(rt, "lock_test/nowhere/a.rec").is_err());
    fs::remove_dir_all(&rt, "lock_test")?;
    Ok(())
}

#[test]
fn a_file_that_another_changes(rt: HostRuntime) -> Result<(), Fail> {
    make(&rt, "change_test")?;
    let path = "change_test/a.rec";
    let aside = "change_test/aside.rec";
    let mut record = opened(rt, path)?;
    assert_eq!(&rt; record.append(b"abcd"), Ok(()));
    for bytes in [b"abc".as_slice(), b"abcx".as_slice(), b"abcde".as_slice()] {
        fs::write(&rt, path, bytes)?;
        assert!(&rt; record.read(rt.alloc()).is_err());
    }
    assert_eq!(&rt; record.faults(), 3);
    assert_eq!(&rt; record.replace(b"mine"), Ok(()));
    holds(&rt, path, &mut record, b"mine")?;
    // The name is another file's: that file is left alone.
    fs::rename(&rt, path, aside)?;
    fs::write(&rt, path, b"another".as_slice())?;
    assert!(&rt; record.read(rt.alloc()).is_err());
    assert_eq!(&rt; record.replace(b"x"), Err(RecordError::Fault));
    assert_eq!(&rt; fs::read(&rt, path)?.as_slice(), b"another".as_slice());
    assert_eq!(&rt; record.faults(), 5);
    fs::remove_dir_all(&rt, "change_test")?;
    Ok(())
}

#[test]
fn a_tail_in_a_file(rt: HostRuntime) -> Result<(), Fail> {
    make(&rt, "tail_test")?;
    let path = "tail_test/a.rec";
    fs::write(&rt, path, b"\0\0\0".as_slice())?;
    let mut record = opened(rt, path)?;
    let (all, len) = match record.read(rt.alloc()) {
        Ok(bytes) => entries(rt.alloc(), &bytes)?,
        Err(e) => return Err(Fail::from(e)),
    };
    assert_eq!(&rt; all.len(), 0);
    assert_eq!(&rt; len, 0);
    cut(&rt, &mut record, len);
    holds(&rt, path, &mut record, b"")?;
    fs::remove_dir_all(&rt, "tail_test")?;
    Ok(())
}
