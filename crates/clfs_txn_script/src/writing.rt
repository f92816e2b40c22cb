// The text of replies: one line each.
ghost use Rattle.std.specs.Prelude.{◌≡◌, ◌++◌, OnOk, decimal};
ghost use Rattle.clfs_cells.specs.Lines.{txn_refusal_text, txn_reply_text, txn_reply_line};

use clfs_cells::{TxnRefusal, TxnReply};
use clfs_lsn::Bytes;
use clfs_script::push_refusal;
use clfs_text::push_decimal;
use std::alloc::AllocError;

// A text and then a number.
fn push_number(text: &[u8], number: u64, out: &mut Bytes) -> Result<(), AllocError>
    ensures { OnOk result (out.new ≡ out.old ++ (text.now ++ decimal number)) }
{
    out.extend_from_slice(text)?;
    push_decimal(number, out)
}

// The number and the name of a refusal, and its fields in order.
fn push_txn_refusal(refusal: &TxnRefusal, out: &mut Bytes) -> Result<(), AllocError>
    ensures { OnOk result (out.new ≡ out.old ++ txn_refusal_text refusal.now) }
{
    match *refusal {
        TxnRefusal::Log(ref refusal) => push_refusal(refusal, out),
        TxnRefusal::NoSuchTxn => out.extend_from_slice(b"30 NoSuchTxn"),
        TxnRefusal::TxnLimit { open_now } => push_number(b"31 TxnLimit ", open_now as u64, out),
        TxnRefusal::CellHeld { txn } => push_number(b"32 CellHeld ", txn as u64, out),
        TxnRefusal::ChangesSpent { changes } => push_number(
            b"33 ChangesSpent ",
            changes as u64,
            out,
        ),
        TxnRefusal::KeptTooMany { have } => push_number(b"34 KeptTooMany ", have as u64, out),
        TxnRefusal::TxnsOpen { open_now } => push_number(b"35 TxnsOpen ", open_now as u64, out),
        TxnRefusal::IdsSpent => out.extend_from_slice(b"36 IdsSpent"),
    }
}

// What was answered.
fn push_txn_reply(reply: &TxnReply, out: &mut Bytes) -> Result<(), AllocError>
    ensures { OnOk result (out.new ≡ out.old ++ txn_reply_text reply.now) }
{
    match *reply {
        TxnReply::Begun(txn) => push_number(b"txn ", txn as u64, out),
        TxnReply::Done => out.extend_from_slice(b"ok"),
        TxnReply::Value(value) => push_number(b"value ", value, out),
        TxnReply::Refused(ref refusal) => {
            out.extend_from_slice(b"refused ")?;
            push_txn_refusal(refusal, out)
        }
    }
}

/// Writes the line of a reply, with its line feed, after the text that is there. If memory runs out a part of it may be there.
pub fn write_txn_reply(reply: &TxnReply, out: &mut Bytes) -> Result<(), AllocError>
    ensures { OnOk result (out.new ≡ out.old ++ txn_reply_line reply.now) }
{
    push_txn_reply(reply, out)?;
    out.extend_from_slice(b"\n")
}
