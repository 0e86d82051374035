//! The bodies of written messages: their objects in order. What is borrowed isn't copied.

ghost use Rattle.std.specs.Prelude.{◌≡◌, ◌++◌, ◌∷◌, [], length, take, true, false, IfOk, IfErr, OnOk, OnErr};
ghost use Rattle.std.specs.List.{flat_map};
ghost use Rattle.pcep_messages.specs.Spelling.{rp_object, srp_object, error_objects, answer_objects, reply_objects, update_objects, create_objects, remove_objects, initiate_objects, objects_written, object_spelled, objects_spelled, objects_fit};
ghost use Rattle.pcep_objects.specs.declared.fault.WriteFault.TheVariants.{TooLong};
ghost use Rattle.pcep_objects.specs.declared.object.Object.TheVariants as objects;

use crate::message::{Answer, Create, Errors, Initiate, Message, PathReply, Update};
use crate::putting::{
    put_constraints, put_cost, put_end_points, put_error, put_lsp, put_new_lsp, put_no_path,
    put_route, put_rp, put_srp,
};
use pcep_objects::{Close, Open, PcepError, Plsp, WriteFault, put_close, put_open};
use std::alloc::AllocError;

/// Appends the RPs of a PCErr, with P clear.
#[tactic(auto, using(crate::proofs::Fronts::front_one))]
fn put_requests(requests: &[u32], out: &mut Vec<u8>) -> Result<(), AllocError>
    ensures written { OnOk result (out.new.items ≡ out.old.items ++ flat_map (λ id. object_spelled (rp_object false id)) requests.now) }
    ensures front { OnErr result (take (length out.old.items) out.new.items ≡ out.old.items) }
{
    for request in requests {
        put_rp(false, *request, out)?;
    }
    Ok(())
}

/// Appends the SRPs of a PCErr.
#[tactic(auto, using(crate::proofs::Fronts::front_one))]
fn put_srps(srps: &[u32], out: &mut Vec<u8>) -> Result<(), AllocError>
    ensures written { OnOk result (out.new.items ≡ out.old.items ++ flat_map (λ id. object_spelled (srp_object false id)) srps.now) }
    ensures front { OnErr result (take (length out.old.items) out.new.items ≡ out.old.items) }
{
    for srp in srps {
        put_srp(false, *srp, out)?;
    }
    Ok(())
}

/// Appends the PCEP-ERRORs of a PCErr.
#[tactic(auto, using(crate::proofs::Fronts::front_one))]
fn put_each_error(errors: &[PcepError], out: &mut Vec<u8>) -> Result<(), AllocError>
    ensures written { OnOk result (out.new.items ≡ out.old.items ++ flat_map (λ error. object_spelled (objects.Error error)) errors.now) }
    ensures front { OnErr result (take (length out.old.items) out.new.items ≡ out.old.items) }
{
    for error in errors {
        put_error(*error, out)?;
    }
    Ok(())
}

/// Appends the body of a PCErr.
#[tactic(auto, using(crate::proofs::ErrorObjects::errors_fit, crate::proofs::Fronts::front_same, crate::proofs::Fronts::front_one, crate::proofs::Fronts::front_two, crate::proofs::Fronts::front_again))]
fn put_errors(errors: &Errors, out: &mut Vec<u8>) -> Result<(), WriteFault>
    ensures written { OnOk result (out.new.items ≡ out.old.items ++ objects_spelled (error_objects errors.now)) }
    ensures fits { IfOk result (λ _. objects_fit (error_objects errors.now) ≡ true) }
    ensures too_long { IfErr result (λ e. e ≡ TooLong → objects_fit (error_objects errors.now) ≡ false) }
    ensures front { OnErr result (take (length out.old.items) out.new.items ≡ out.old.items) }
{
    put_requests(errors.requests.as_slice(), out)?;
    put_srps(errors.srps.as_slice(), out)?;
    put_each_error(errors.errors.as_slice(), out)?;
    Ok(())
}

#[tactic(auto, using(crate::proofs::Fronts::front_same, crate::proofs::Fronts::front_one))]
fn put_answer(answer: &Answer, out: &mut Vec<u8>) -> Result<(), WriteFault>
    ensures written { OnOk result (out.new.items ≡ out.old.items ++ objects_spelled (answer_objects answer.now)) }
    ensures fits { IfOk result (λ _. objects_fit (answer_objects answer.now) ≡ true) }
    ensures too_long { IfErr result (λ e. e ≡ TooLong → objects_fit (answer_objects answer.now) ≡ false) }
    ensures front { OnErr result (take (length out.old.items) out.new.items ≡ out.old.items) }
{
    match answer {
        Answer::Found(hops, cost) => {
            put_route(hops.as_slice(), out)?;
            put_cost(*cost, out)?;
            Ok(())
        }
        Answer::NoPath(vector) => {
            put_no_path(*vector, out)?;
            Ok(())
        }
    }
}

/// Appends the body of a PCRep.
#[tactic(auto, using(crate::proofs::Fronts::front_same, crate::proofs::Fronts::front_one, crate::proofs::Fronts::front_again))]
fn put_reply(reply: &PathReply, out: &mut Vec<u8>) -> Result<(), WriteFault>
    ensures written { OnOk result (out.new.items ≡ out.old.items ++ objects_spelled (reply_objects reply.now)) }
    ensures fits { IfOk result (λ _. objects_fit (reply_objects reply.now) ≡ true) }
    ensures too_long { IfErr result (λ e. e ≡ TooLong → objects_fit (reply_objects reply.now) ≡ false) }
    ensures front { OnErr result (take (length out.old.items) out.new.items ≡ out.old.items) }
{
    put_rp(true, reply.request, out)?;
    put_answer(&reply.answer, out)
}

/// Appends the body of a PCUpd.
#[tactic(auto, using(crate::proofs::Fronts::front_same, crate::proofs::Fronts::front_one, crate::proofs::Fronts::front_two, crate::proofs::Fronts::front_three, crate::proofs::Fronts::front_again))]
fn put_update(update: &Update, out: &mut Vec<u8>) -> Result<(), WriteFault>
    ensures written { OnOk result (out.new.items ≡ out.old.items ++ objects_spelled (update_objects update.now)) }
    ensures fits { IfOk result (λ _. objects_fit (update_objects update.now) ≡ true) }
    ensures too_long { IfErr result (λ e. e ≡ TooLong → objects_fit (update_objects update.now) ≡ false) }
    ensures front { OnErr result (take (length out.old.items) out.new.items ≡ out.old.items) }
{
    put_srp(false, update.srp, out)?;
    put_lsp(update.plsp, update.delegate, update.admin, out)?;
    put_route(update.ero.as_slice(), out)?;
    put_constraints(update.attributes, update.bandwidth, out)?;
    Ok(())
}

/// Appends the body of a PCInitiate for a new LSP.
#[tactic(auto, using(crate::proofs::Fronts::front_same, crate::proofs::Fronts::front_one, crate::proofs::Fronts::front_two, crate::proofs::Fronts::front_three, crate::proofs::Fronts::front_four, crate::proofs::Fronts::front_again))]
fn put_create(create: &Create, out: &mut Vec<u8>) -> Result<(), WriteFault>
    ensures written { OnOk result (out.new.items ≡ out.old.items ++ objects_spelled (create_objects create.now)) }
    ensures fits { IfOk result (λ _. objects_fit (create_objects create.now) ≡ true) }
    ensures too_long { IfErr result (λ e. e ≡ TooLong → objects_fit (create_objects create.now) ≡ false) }
    ensures front { OnErr result (take (length out.old.items) out.new.items ≡ out.old.items) }
{
    put_srp(false, create.srp, out)?;
    put_new_lsp(create.name.as_slice(), out)?;
    put_end_points(create.source, create.destination, out)?;
    put_route(create.ero.as_slice(), out)?;
    put_constraints(create.attributes, create.bandwidth, out)?;
    Ok(())
}

/// Appends the body of a PCInitiate that deletes an LSP.
#[tactic(auto, using(crate::proofs::Fronts::front_same, crate::proofs::Fronts::front_one))]
fn put_remove(srp: u32, plsp: Plsp, out: &mut Vec<u8>) -> Result<(), AllocError>
    ensures written { OnOk result (out.new.items ≡ out.old.items ++ objects_spelled (remove_objects srp plsp)) }
    ensures fits { IfOk result (λ _. objects_fit (remove_objects srp plsp) ≡ true) }
    ensures front { OnErr result (take (length out.old.items) out.new.items ≡ out.old.items) }
{
    put_srp(true, srp, out)?;
    put_lsp(plsp, true, false, out)
}

/// Appends the body of a PCInitiate.
fn put_initiate(initiate: &Initiate, out: &mut Vec<u8>) -> Result<(), WriteFault>
    ensures written { OnOk result (out.new.items ≡ out.old.items ++ objects_spelled (initiate_objects initiate.now)) }
    ensures fits { IfOk result (λ _. objects_fit (initiate_objects initiate.now) ≡ true) }
    ensures too_long { IfErr result (λ e. e ≡ TooLong → objects_fit (initiate_objects initiate.now) ≡ false) }
    ensures front { OnErr result (take (length out.old.items) out.new.items ≡ out.old.items) }
{
    match initiate {
        Initiate::Create(create) => put_create(create, out),
        Initiate::Remove { srp, plsp } => {
            put_remove(*srp, *plsp, out)?;
            Ok(())
        }
    }
}

/// Appends the body of an Open.
#[tactic(auto, unfolding(crate::specs::Spelling::object_spelled, crate::specs::Spelling::object_fits))]
fn put_opening(opening: &Open, out: &mut Vec<u8>) -> Result<(), AllocError>
    ensures written { OnOk result (out.new.items ≡ out.old.items ++ objects_spelled (objects.Open opening.now ∷ [])) }
    ensures fits { objects_fit (objects.Open opening.now ∷ []) ≡ true }
    ensures unchanged { OnErr result (out.new.items ≡ out.old.items) }
{
    put_open(opening, out)
}

/// Appends the body of a Close.
#[tactic(auto, unfolding(crate::specs::Spelling::object_spelled, crate::specs::Spelling::object_fits))]
fn put_reason(reason: u8, out: &mut Vec<u8>) -> Result<(), AllocError>
    ensures written { OnOk result (out.new.items ≡ out.old.items ++ objects_spelled (objects.Close (record { reason = reason }) ∷ [])) }
    ensures fits { objects_fit (objects.Close (record { reason = reason }) ∷ []) ≡ true }
    ensures unchanged { OnErr result (out.new.items ≡ out.old.items) }
{
    put_close(Close { reason }, out)
}

/// Appends the body of a message of a kind that is written. After an `Err` a part of it may have been appended.
#[tactic(auto, using(crate::proofs::Fronts::front_same))]
pub fn put_body(message: &Message, out: &mut Vec<u8>) -> Result<(), WriteFault>
    ensures written { OnOk result (out.new.items ≡ out.old.items ++ objects_spelled (objects_written message.now)) }
    ensures fits { IfOk result (λ _. objects_fit (objects_written message.now) ≡ true) }
    ensures too_long { IfErr result (λ e. e ≡ TooLong → objects_fit (objects_written message.now) ≡ false) }
    ensures front { OnErr result (take (length out.old.items) out.new.items ≡ out.old.items) }
{
    match message {
        Message::Opening(opening) => {
            put_opening(opening, out)?;
            Ok(())
        }
        Message::Reply(reply) => put_reply(reply, out),
        Message::Error(errors) => put_errors(errors, out),
        Message::Close(reason) => {
            put_reason(*reason, out)?;
            Ok(())
        }
        Message::Update(update) => put_update(update, out),
        Message::Initiate(initiate) => put_initiate(initiate, out),
        _ => Ok(()),
    }
}
