//! `LogRecord`: a record of a log that tells a write. `redo_record` and `redo_page` put such records into the image of
//! a page, as an engine does after a crash. The laws of `recovery` say what the page then is.
ghost use Rattle.std.specs.Prelude.{◌≡◌, ℕ, [], ◌∷◌, OnOk, OnErr, IfErr, IsOk, length, reverse};
ghost use Rattle.bp_page.specs.declared.refusals.Refusal.TheVariants.{OutOfPage};
ghost use Rattle.bp_trail.specs.Recovery.{AllFit, FirstMisfit, records_from, redo};

use bp_page::{Bytes, Image, Lsn, PageNo, Refusal};

/// A record of an engine's log: bytes that were written to a page. A record that tells several writes is several of
/// these, with one LSN.
#[derive(PartialEq, Eq, Debug, Drop)]
pub struct LogRecord {
    /// The page that was written to.
    pub page: PageNo,
    /// Where the bytes begin, in bytes from the start of the page.
    pub offset: u32,
    /// The bytes that stand there after the write.
    pub bytes: Bytes,
    /// The LSN under which the pool was told of the write.
    pub lsn: Lsn,
}

/// Redo of one record: puts its bytes into the image of a page. A record of another page, or with an LSN below `from`,
/// changes nothing. An engine that reads its log record by record calls this for each one, the oldest first, with its
/// redo point for `from`. With the LSN after that of the page, if that is greater, this is redo by page LSN. A page
/// that may be torn may have a newer LSN than its bytes: put a full image in with the redo point for `from`, and go on
/// from its LSN. It takes no memory.
///
/// Fails with `OutOfPage` (45) exactly if bytes that it is to put in do not all lie within the image: then image and
/// record are not of one page file, or one of them is damaged. The image is as it was.
pub fn redo_record(
    change: &LogRecord,
    from: Lsn,
    page: PageNo,
    image: &mut Image,
) -> Result<(), Refusal>
    ensures redone { OnOk result (image.new ≡ redo from (change.now ∷ []) page image.old) }
    ensures fitted { OnOk result (AllFit (length image.old) (records_from from
        (change.now ∷ []) page)) }
    ensures unchanged { OnErr result (image.new ≡ image.old) }
    ensures fits { AllFit (length image.old) (records_from from (change.now ∷ []) page) →
        IsOk result }
    ensures misfit { IfErr result (λ why. why ≡ OutOfPage) }
    ensures size { length image.new ≡ length image.old }
{
    if change.page.number() != page.number() || change.lsn.number() < from.number() {
        return Ok(());
    }
    let (size, bytes) = (image.bytes().len(), change.bytes.bytes());
    let offset = change.offset as usize;
    if offset > size || bytes.len() > size - offset {
        return Err(Refusal::OutOfPage);
    }
    image.patch(offset, bytes);
    Ok(())
}

/// Redo of one page: puts the bytes of its records, from the LSN `from` on, into its image. The log is oldest first,
/// and may have records of other pages, which are passed over. With a redo point for `from` the image is then what the
/// page had, as far as the log goes. It takes no memory, and goes over the log once.
///
/// Fails with `OutOfPage` (45) at the first record of the page, from that LSN on, whose bytes do not all lie within the
/// image. Those before it are in the image, and no others.
pub fn redo_page(
    log: &[LogRecord],
    from: Lsn,
    page: PageNo,
    image: &mut Image,
) -> Result<(), Refusal>
    ensures redone { OnOk result (image.new ≡ redo from (reverse log.now) page image.old) }
    ensures fitted { OnOk result (AllFit (length image.old) (records_from from
        (reverse log.now) page)) }
    ensures stopped { OnErr result ((first : FirstMisfit (length image.old) from page log.now)
        × (image.new ≡ redo from (reverse first.before) page image.old)) }
    ensures fits { AllFit (length image.old) (records_from from (reverse log.now) page) →
        IsOk result }
    ensures misfit { IfErr result (λ why. why ≡ OutOfPage) }
    ensures size { length image.new ≡ length image.old }
{
    for change in log {
        redo_record(change, from, page, image)?;
    }
    Ok(())
}
