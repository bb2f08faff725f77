//! Messages to send, and messages of changeover.
ghost use Rattle.std.specs.Prelude.{◌≡◌, ◌++◌, ◌∷◌, [], true, Option, Some, length, slice_get, OnOk, OnErr, IfOk, IfSome, ◌<◌};
ghost use Rattle.group_changeover.specs.Limits.{SELECTIONS};
ghost use Rattle.group_changeover.specs.Sharing.{selection_of};
ghost use Rattle.group_changeover.specs.Labels.{label_in, IsLabel};
ghost use Rattle.group_changeover.specs.Changeovers.{IsKind, Says};
ghost use Rattle.link_group.specs.Limits.{MOST_LINKS, POINT_CODES};
ghost use Rattle.group_changeover.specs.declared.changeover.Changeover.{Changeover as PlainChangeover};
ghost use Rattle.link_group.specs.OneLink.{fault_of, retrieve_refusal, abandon_refusal};
ghost use Rattle.group_changeover.specs.Bound.{is_bound};
ghost use Rattle.link_group.specs.Encodable.{IsEncodable};
ghost use Rattle.link_group.specs.Gone.{acknowledged, unsure, told_front, unacknowledged_at, if_ok};
ghost use Rattle.link_group.specs.Set.{points_of, send_fault, sent, bind_fault_at, bound_at};
ghost use Rattle.link_group.specs.Changing.{message, fail_fault, after_failure, order_at, is_for, IsReply, IsRead, after_message, hearing_of, reply_to, retrieve_fault_at, after_retrieve, messages_for, abandon_fault_at, after_abandon, unsent_at};

use crate::group::{Group, Sif};
use crate::links::{abandon_at, bind_at, fail_at, hear_at, heard_at, put_at, retrieve_at};
use group_changeover::{
    AbandonError, BindError, Changeover, FailError, Hearing, Kind, Label, Points, RetrieveError,
    SendError, read_changeover, selection_of,
};
use resend_store::Msu;

/// How a received changeover message counted, and the answer to send.
#[derive(Clone, Copy, Debug, PartialEq, Eq)]
pub struct Answered {
    /// How the message counted.
    pub hearing: Hearing,
    /// The answer, to an order.
    pub reply: Option<Changeover>,
}

/// How received octets counted, and the field of the answer to send.
#[derive(Debug, Drop)]
pub struct Heard {
    /// How the octets counted.
    pub hearing: Hearing,
    /// The answer, to an order.
    pub reply: Option<Sif>,
}

/// A changeover message from one point to another.
fn message(own: u16, peer: u16, link: usize, kind: Kind) -> Changeover
    requires own { own < POINT_CODES }
    requires peer { peer < POINT_CODES }
    requires link { link < MOST_LINKS }
    requires kind { IsKind kind }
    ensures is { result ≡ message own peer link kind }
    ensures encodable { IsEncodable result }
{
    let label = Label {
        dpc: peer,
        opc: own,
        sls: link as u8,
    };
    Changeover { label, kind }
}

/// The field of an answer, if there is one.
fn sif_of(reply: Option<Changeover>) -> Option<Sif>
    requires { IfSome reply IsEncodable }
    ensures { IsReply reply result }
{
    match reply {
        Some(message) => Some(message.octets()),
        None => None,
    }
}

impl Group {
    /// Takes a message to send whose SIF begins with this label, and puts it last on the link of its selection.
    ///
    /// # Errors
    ///
    /// `K5 Bound` if it is bound to a link: [`Group::send_by`] takes it. `K1 NoLink` if its selection has no link, or
    /// that link isn't in changeover and is out of service, held or not admitted; `K2 Waiting` if that link is in
    /// changeover; `E1 Full` if the most messages wait there. Then nothing changes.
    #[tactic(auto, using(crate::proofs::Fields::long_enough), unfolding(crate::specs::Set::send_fault, crate::specs::Set::sent))]
    pub fn send(&mut self, label: Label, msu: Msu) -> Result<(), SendError>
        requires { label_in msu.sif.items ≡ Some label }
        ensures fault { fault_of result ≡ send_fault self.old msu }
        ensures ok { OnOk result (self.new ≡ sent self.old msu) }
        ensures err { OnErr result (self.new ≡ self.old) }
        ensures within { selection_of msu < SELECTIONS }
        ensures accepted { self.new.accepted ≡ self.old.accepted ++ if_ok result (msu ∷ []) }
        ensures gone { self.new.gone ≡ self.old.gone }
    {
        let selection = selection_of(&msu);
        if self.is_bound(&msu) {
            return Err(SendError::Bound);
        }
        match self.table.link_of(selection) {
            Some(at) => {
                let accepted = self.accepted.and(&msu);
                match put_at(self.links.as_mut_slice(), at, msu) {
                    Ok(()) => {
                        self.accepted = accepted;
                        Ok(())
                    }
                    Err(fault) => Err(fault),
                }
            }
            None => Err(SendError::NoLink),
        }
    }

    /// Whether a message from this point to the other is bound to a link: one of the four of changeover, a changeback
    /// declaration or its acknowledgement, traffic restart allowed (service indicator 0; Q.704, 15.4 to 15.6), or a
    /// test of the link or its acknowledgement (service indicator 1; Q.707).
    pub fn is_bound(&self, msu: &Msu) -> bool
        ensures { result ≡ is_bound (points_of self.now) msu.now }
    {
        let points = Points {
            own: self.own,
            peer: self.peer,
        };
        points.is_bound(msu)
    }

    /// Takes a message that is bound to a link, and puts it last there. It leaves by an acknowledgement, by a restart
    /// of the link's directions, or when messages are retrieved or given up. No other link gets it.
    ///
    /// # Errors
    ///
    /// `K1 NoLink` if the link is missing, out of service or held, `E1 Full` if it holds 1,151. Then nothing changes.
    #[tactic(auto, using(crate::proofs::Fields::long_bound), unfolding(crate::specs::Set::bind_fault_at, crate::specs::Set::bound_at))]
    pub fn send_by(&mut self, link: usize, msu: Msu) -> Result<(), BindError>
        requires { is_bound (points_of self.old) msu ≡ true }
        ensures fault { fault_of result ≡ bind_fault_at self.old link }
        ensures ok { OnOk result (self.new ≡ bound_at self.old link msu) }
        ensures err { OnErr result (self.new ≡ self.old) }
        ensures accepted { self.new.accepted ≡ self.old.accepted }
        ensures gone { self.new.gone ≡ self.old.gone }
    {
        bind_at(self.links.as_mut_slice(), link, msu)
    }

    /// Begins the changeover of a failed link. Returns the order to send for it by another link (Q.704, changeover).
    ///
    /// # Errors
    ///
    /// `K1 NoLink` if there is no such link, `K2 Waiting` if its changeover goes on. Then nothing changes.
    #[tactic(auto, unfolding(crate::specs::Changing::fail_fault, crate::specs::Changing::after_failure))]
    pub fn begin_changeover(&mut self, link: usize) -> Result<Changeover, FailError>
        ensures fault { fault_of result ≡ fail_fault self.old link }
        ensures order { IfOk result (λ order. order ≡ order_at self.old link) }
        ensures encodable { IfOk result IsEncodable }
        ensures ok { OnOk result (self.new ≡ after_failure self.old link) }
        ensures err { OnErr result (self.new ≡ self.old) }
        ensures accepted { self.new.accepted ≡ self.old.accepted }
        ensures gone { self.new.gone ≡ self.old.gone }
    {
        let kind = fail_at(self.links.as_mut_slice(), link)?;
        Ok(message(self.own, self.peer, link, kind))
    }

    /// As [`Group::begin_changeover`], with the field of that order.
    ///
    /// # Errors
    ///
    /// Those of [`Group::begin_changeover`]. Then nothing changes.
    pub fn fail(&mut self, link: usize) -> Result<Sif, FailError>
        ensures fault { fault_of result ≡ fail_fault self.old link }
        ensures order { IfOk result (λ sif. Says sif.items (order_at self.old link)) }
        ensures ok { OnOk result (self.new ≡ after_failure self.old link) }
        ensures err { OnErr result (self.new ≡ self.old) }
        ensures accepted { self.new.accepted ≡ self.old.accepted }
        ensures gone { self.new.gone ≡ self.old.gone }
    {
        let order = self.begin_changeover(link)?;
        Ok(order.octets())
    }

    /// Whether a message is from the other point to this one.
    fn is_for(&self, message: Changeover) -> bool
        ensures { result ≡ is_for self.now message }
    {
        message.label.dpc == self.own && message.label.opc == self.peer
    }

    /// How a changeover message counts in this set.
    fn hearing(&self, message: Changeover) -> Hearing
        ensures { result ≡ hearing_of self.now (Some message) }
    {
        if !self.is_for(message) {
            return Hearing::Nothing;
        }
        let link = usize::from(message.label.sls);
        heard_at(self.links.as_slice(), link, message.kind)
    }

    /// Takes a changeover message. Returns the answer, if there is one.
    fn answer(&mut self, heard: Changeover) -> Option<Changeover>
        requires { IsLabel heard.label }
        ensures set { self.new ≡ after_message self.old (Some heard) }
        ensures accepted { self.new.accepted ≡ self.old.accepted }
        ensures gone { self.new.gone ≡ self.old.gone }
        ensures reply { result ≡ reply_to self.old (Some heard) }
        ensures encodable { IfSome result IsEncodable }
    {
        if !self.is_for(heard) {
            return None;
        }
        let link = usize::from(heard.label.sls);
        match hear_at(self.links.as_mut_slice(), link, heard.kind) {
            Some(kind) => Some(message(self.own, self.peer, link, kind)),
            None => None,
        }
    }

    /// Takes a received changeover message. Returns how it counted, and the answer to send, if any. A message not from
    /// the other point to this one, or about a link that doesn't exist, changes nothing and gets no answer.
    pub fn hear(&mut self, message: Changeover) -> Answered
        requires { IsLabel message.label }
        ensures set { self.new ≡ after_message self.old (Some message) }
        ensures hearing { result.hearing ≡ hearing_of self.old (Some message) }
        ensures reply { result.reply ≡ reply_to self.old (Some message) }
        ensures encodable { IfSome result.reply IsEncodable }
        ensures accepted { self.new.accepted ≡ self.old.accepted }
        ensures gone { self.new.gone ≡ self.old.gone }
    {
        let hearing = self.hearing(message);
        let reply = self.answer(message);
        Answered { hearing, reply }
    }

    /// As `hear`, for the field of a received message, with the field of the answer. Octets that aren't exactly a
    /// changeover message change nothing and get no answer.
    pub fn changeover_message(&mut self, sif: &[u8]) -> Heard
        ensures set { (m : Option PlainChangeover) → IsRead sif.now m → self.new ≡ after_message self.old m }
        ensures hearing { (m : Option PlainChangeover) → IsRead sif.now m → result.hearing ≡ hearing_of self.old m }
        ensures reply { (m : Option PlainChangeover) → IsRead sif.now m → IsReply (reply_to self.old m) result.reply }
        ensures accepted { self.new.accepted ≡ self.old.accepted }
        ensures gone { self.new.gone ≡ self.old.gone }
    {
        match read_changeover(sif) {
            Some(message) => {
                let answered = self.hear(message);
                Heard {
                    hearing: answered.hearing,
                    reply: sif_of(answered.reply),
                }
            }
            None => Heard {
                hearing: Hearing::Nothing,
                reply: None,
            },
        }
    }

    /// Retrieves, for [`Group::divert`], the messages of a link in changeover that the far side may lack, and returns
    /// how many there are (Q.704, retrieval): those after the ones that it reported as accepted, the unacknowledged
    /// first; without a number, those not sent since both directions last restarted. The first number reported counts,
    /// resolved as it was heard; one that would acknowledge more than was sent then counts as none.
    ///
    /// # Errors
    ///
    /// `K1 NoLink` if there is no such link or no changeover goes on there, `K2 Waiting` if they are retrieved already,
    /// or there is no answer and fewer than 1,400 ticks passed since the changeover began, `K4 Unsure` and their count
    /// if messages were sent and it isn't known which of them arrived; else `NoMemory`. Then nothing changes.
    #[tactic(auto, unfolding(crate::specs::Changing::retrieve_fault_at, crate::specs::Changing::after_retrieve, crate::specs::Changing::messages_for))]
    pub fn retrieve(&mut self, link: usize) -> Result<usize, RetrieveError>
        ensures fault { retrieve_refusal result ≡ retrieve_fault_at self.old link }
        ensures count { IfOk result (λ count. count ≡ length (messages_for self.old link)) }
        ensures ok { OnOk result (self.new ≡ after_retrieve self.old link) }
        ensures err { OnErr result (self.new ≡ self.old) }
        ensures accepted { self.new.accepted ≡ self.old.accepted }
        ensures gone { self.new.gone ≡ self.old.gone ++ if_ok result (acknowledged (told_front (slice_get self.old.links link))) }
    {
        let gone = self.with_reported(link);
        match retrieve_at(self.links.as_mut_slice(), link) {
            Ok(count) => {
                self.gone = gone;
                Ok(count)
            }
            Err(fault) => Err(fault),
        }
    }

    /// Gives up the sent messages of a link in changeover: they count as unsure. Retrieves those not sent since both
    /// directions last restarted, and returns how many there are.
    ///
    /// # Errors
    ///
    /// `K1 NoLink` as `retrieve`, `K2 Waiting` if that isn't refused as unsure, else `NoMemory`. Then nothing changes.
    #[tactic(auto, unfolding(crate::specs::Changing::abandon_fault_at, crate::specs::Changing::after_abandon, crate::specs::Changing::unsent_at))]
    pub fn abandon(&mut self, link: usize) -> Result<usize, AbandonError>
        ensures fault { abandon_refusal result ≡ abandon_fault_at self.old link }
        ensures count { IfOk result (λ count. count ≡ length (unsent_at self.old link)) }
        ensures ok { OnOk result (self.new ≡ after_abandon self.old link) }
        ensures err { OnErr result (self.new ≡ self.old) }
        ensures accepted { self.new.accepted ≡ self.old.accepted }
        ensures gone { self.new.gone ≡ self.old.gone ++ if_ok result (unsure (unacknowledged_at (slice_get self.old.links link))) }
    {
        let gone = self.with_unacknowledged(link);
        match abandon_at(self.links.as_mut_slice(), link) {
            Ok((count, sent)) => {
                self.gone = gone;
                self.unsure = self.unsure.saturating_add(sent as u64);
                Ok(count)
            }
            Err(fault) => Err(fault),
        }
    }
}
