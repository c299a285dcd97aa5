//! Groups whose members come and go.
ghost use Rattle.std.specs.Prelude.{◌≡◌, None, Some, IfOk, OnOk, option_map};
ghost use Rattle.std.specs.FinMap as fin;
ghost use Rattle.smq_group.specs.Groups.{key_on, no_members};
ghost use Rattle.smq_group.specs.Known.{centre_at, link_of};

use smq_group::{Change, Groups, Standing};
use smq_kit::{Dir, Key, LinkId, MessageId, Moment, Place, SessionId};
use std::alloc::AllocError;
use std::process::Abort;

const SUBMIT: Place = Place {
    session: SessionId(1),
    dir: Dir::FromClient,
    offset: 0,
};

const RECEIPT: Place = Place {
    session: SessionId(1),
    dir: Dir::FromCentre,
    offset: 0,
};

/// A receipt at a greater place.
const LATER: Place = Place {
    session: SessionId(1),
    dir: Dir::FromCentre,
    offset: 18,
};

/// Whether these standings are told, in their order, and no others.
fn tell(changes: &[Change], wanted: &[(Place, Standing)]) -> bool {
    changes.len() == wanted.len()
        && changes.iter().zip(wanted.iter()).all(|(change, (place, standing))| {
            change.place == *place && change.standing == *standing
        })
}

/// Whether a submit that comes is told, and one that goes is not.
fn submit_comes_and_goes(groups: &mut Groups) -> Result<bool, AllocError>
    requires { groups.old.members ≡ no_members }
{
    let came = groups.add_submit(LinkId(1), Key::Number(1), SUBMIT)?;
    let is_told = tell(came.as_slice(), &[(SUBMIT, Standing::Single(None))]);
    let went = groups.remove_submit(LinkId(1), &Key::Number(1), SUBMIT)?;
    Ok(is_told && went.is_empty())
}

/// Whether a receipt that comes is told, and one that goes is not.
fn receipt_comes_and_goes(groups: &mut Groups) -> Result<bool, AllocError>
    requires { groups.old.members ≡ no_members }
{
    let came = groups.add_receipt(LinkId(1), Key::Number(1), RECEIPT, Moment::epoch(), true)?;
    let is_told = tell(came.as_slice(), &[(RECEIPT, Standing::Stray)]);
    let went = groups.remove_receipt(LinkId(1), &Key::Number(1), RECEIPT)?;
    Ok(is_told && went.is_empty())
}

#[test]
fn a_submit_comes_and_goes(rt: HostRuntime) {
    let mut groups = Groups::new(rt.alloc());
    let is_told = submit_comes_and_goes(&mut groups).expect(&rt, "memory");
    assert!(rt; is_told);
}

#[test]
fn a_receipt_comes_and_goes(rt: HostRuntime) {
    let mut groups = Groups::new(rt.alloc());
    let is_told = receipt_comes_and_goes(&mut groups).expect(&rt, "memory");
    assert!(rt; is_told);
}

/// An equal key.
fn copy_of(key: &Key) -> Result<Key, AllocError>
    ensures { IfOk result (λ copy. copy ≡ key.now) }
{
    key.clone()
}

/// Whether a receipt that comes is stray, and decides once its submit comes.
fn receipt_then_submit(groups: &mut Groups, key: &Key, moment: Moment) -> Result<bool, AllocError>
    requires { groups.old.members ≡ no_members }
    ensures there { OnOk result (option_map (λ r. r.key) (fin.get groups.new.members.receipts (centre_at 0))
        ≡ Some (key_on (link_of 1) key.now)) }
    ensures absent { OnOk result (fin.get groups.new.members.receipts (centre_at 18) ≡ None) }
{
    let first = groups.add_receipt(LinkId(1), copy_of(key)?, RECEIPT, moment, true)?;
    let second = groups.add_submit(LinkId(1), copy_of(key)?, SUBMIT)?;
    let is_stray = tell(first.as_slice(), &[(RECEIPT, Standing::Stray)]);
    let decides = tell(
        second.as_slice(),
        &[
            (SUBMIT, Standing::Single(Some(RECEIPT))),
            (RECEIPT, Standing::Deciding),
        ],
    );
    Ok(is_stray && decides)
}

/// Whether an earlier receipt that comes decides in place of the first, which is extra.
fn earlier_comes(groups: &mut Groups, key: &Key, moment: Moment) -> Result<bool, AllocError>
    requires { fin.get groups.old.members.receipts (centre_at 18) ≡ None }
    ensures there { OnOk result (option_map (λ r. r.key) (fin.get groups.new.members.receipts (centre_at 18))
        ≡ Some (key_on (link_of 1) key.now)) }
    ensures settled { groups.new.settled ≡ groups.old.settled }
{
    let came = groups.add_receipt(LinkId(1), copy_of(key)?, LATER, moment, true)?;
    Ok(tell(
        came.as_slice(),
        &[
            (SUBMIT, Standing::Single(Some(LATER))),
            (RECEIPT, Standing::Extra),
            (LATER, Standing::Deciding),
        ],
    ))
}

/// Whether the first receipt decides again once an earlier one has come and gone.
fn earlier_comes_and_goes(
    groups: &mut Groups,
    key: &Key,
    moment: Moment,
    earlier: Moment,
) -> Result<bool, AllocError>
    requires { groups.old.members ≡ no_members }
{
    let came = receipt_then_submit(groups, key, moment)?;
    let decides = earlier_comes(groups, key, earlier)?;
    let went = groups.remove_receipt(LinkId(1), key, LATER)?;
    let left = [
        (SUBMIT, Standing::Single(Some(RECEIPT))),
        (RECEIPT, Standing::Deciding),
    ];
    Ok(came && decides && tell(went.as_slice(), &left))
}

/// Whether a submit has no receipt once an earlier receipt was undone, and the first one, which was settled, is taken out.
fn earlier_is_undone(
    groups: &mut Groups,
    key: &Key,
    moment: Moment,
    earlier: Moment,
) -> Result<bool, AllocError>
    requires { groups.old.members ≡ no_members }
{
    let came = receipt_then_submit(groups, key, moment)?;
    groups.settle();
    let decides = earlier_comes(groups, key, earlier)?;
    groups.undo();
    let went = groups.remove_receipt(LinkId(1), key, RECEIPT)?;
    Ok(came && decides && tell(went.as_slice(), &[(SUBMIT, Standing::Single(None))]))
}

fn text_key(rt: &impl Abort) -> Key {
    Key::Text(MessageId::new(b"1").expect(rt, "an id"))
}

fn moment(rt: &impl Abort, milliseconds: u64) -> Moment {
    Moment::new(milliseconds).expect(rt, "a moment")
}

#[test]
fn an_earlier_receipt_decides_until_it_is_taken_out(rt: HostRuntime) {
    let mut groups = Groups::new(rt.alloc());
    let told = earlier_comes_and_goes(
        &mut groups,
        &text_key(&rt),
        moment(&rt, 5000),
        moment(&rt, 4000),
    );
    assert!(rt; told == Ok(true));
}

#[test]
fn an_earlier_receipt_decides_until_it_is_undone(rt: HostRuntime) {
    let mut groups = Groups::new(rt.alloc());
    let told = earlier_is_undone(
        &mut groups,
        &text_key(&rt),
        moment(&rt, 5000),
        moment(&rt, 4000),
    );
    assert!(rt; told == Ok(true));
}
