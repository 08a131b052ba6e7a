//! The reply to a line of the input.
ghost use Rattle.std.specs.Prelude.{◌≡◌, ℕ, ◌+◌, ◌<◌, ◌≤◌, All, IfOk, Some, None, Err};
ghost use Rattle.apply_ast.specs.Printing as printing;
ghost use Rattle.apply_ast.specs.Trees as tree;
ghost use Rattle.apply_ast.specs.Views.{pipe_of};
ghost use Rattle.apply_grammar.specs.Requests.{asked_of};
ghost use Rattle.edm_model.specs.LookUps.{IsSet, set_name};
ghost use Rattle.edm_values.specs.Literals.{plain_text};
ghost use Rattle.edm_data.specs.References.{key};
ghost use Rattle.context_typing.specs.Answers.{IsTyping};
ghost use Rattle.context_typing.specs.Readings.{readings};
ghost use Rattle.context_typing.specs.Typing.{shape_of_set};
ghost use Rattle.hier_states.specs.NamedHierarchies.{hierarchies};
ghost use Rattle.hier_states.specs.States.{IsReadyAt};
ghost use Rattle.apply_meaning.specs.Instances as instances;
ghost use Rattle.apply_meaning.specs.Meaning.{mean};
ghost use Rattle.apply_meaning.specs.MeaningLaws.{AllFit};
ghost use Rattle.optimiser.specs.Plans.{AreOneTyping, IsPlan, own_of, written_of};
ghost use Rattle.step_run.specs.Costs.{total_cost};
ghost use Rattle.frame_run.specs.HeldRows.{rows_of};
ghost use Rattle.json_render.specs.Bodies.{body};
ghost use Rattle.rewrite_laws.specs.Rewrites.{IsPlanOf};
ghost use Rattle.apply_replies.specs.Costs.{BoundsLine, BoundsRequest, IsRunFor};
ghost use Rattle.apply_replies.specs.Replies.{IsReply, IsResponse, IsTyped};
ghost use Rattle.apply_replies.specs.Replies as spec;
ghost use Rattle.apply_replies.specs.Responses.{Cycle, Syntax, answered, plan_body, refused};
ghost use Rattle.apply_replies.specs.OutputBytes.{bytes_made};
ghost use Rattle.line_stream.specs.Outputs.{bytes_of};

use crate::responses::{
    answered, cyclic, explained, no_pipeline, not_found, out_of_memory, past_range, too_long,
    untyped,
};
use apply_ast::{Request, print};
use apply_grammar::{GrammarRefused, read_request};
use apply_meaning::{RunRefused, Steps, data_is_loaded};
use apply_store::{Store, identifier};
use context_typing::{TypeRefused, Typed, type_pipe};
use edm_data::{Data, EntityRef};
use frame_run::Held;
use hier_states::first_cycle;
use json_render::{render_frame, render_in_parts};
use line_stream::Output;
use optimiser::{Plan, optimise};
use par_stages::Gate;
use plan_run::run_unmade;
use row_frames::Frame;
use std::alloc::{AllocError, Global};
use std::sync::ledger::Ledger;
use std::thread::Threads;

/// The most workers that a run may have.
const MOST: u32 = 64;

/// The bytes of a response that was made, or that memory was wanting.
fn made(response: Result<Output, AllocError>) -> Output
    ensures { bytes_of result ≡ bytes_made response }
{
    match response {
        Ok(output) => output,
        Err(_) => Output::Constant(out_of_memory()),
    }
}

/// The plan by which a typed pipeline is run.
fn plan_for(
    alloc: Global,
    store: &Store,
    typed: Typed,
    is_optimised: bool,
) -> Result<Plan, AllocError>
    requires set { IsSet store.now.world.model typed.set }
    requires typing { IsTyping store.now.world.model (readings store.now.customs) typed }
    ensures plan { IfOk result (IsPlan store.now.world.model (readings store.now.customs)) }
    ensures written { IfOk result (λ p. AreOneTyping (written_of p) typed) }
    ensures own { IfOk result (λ p. IsRunFor is_optimised store.now.world.model (readings store.now.customs) (shape_of_set store.now.world.model typed.set) (pipe_of typed.pipe) (pipe_of (own_of p).pipe)) }
{
    if is_optimised {
        return optimise(alloc, store.model(), store.customs(), &typed);
    }
    Ok(Plan::written(typed))
}

/// The instances that a plan gives fit the shape of what it runs.
fn rows_fit(store: &Store, plan: &Plan, held: &Held)
    requires set { IsSet store.now.world.model (written_of plan.now).set }
    requires plan { IsPlan store.now.world.model (readings store.now.customs) plan.now }
    requires mean { let t = written_of plan.now in
        mean store.now.world (readings store.now.customs) (shape_of_set store.now.world.model t.set) (pipe_of t.pipe) (instances.rows store.now.world t.set) ≡ Some (rows_of held.now) }
    ensures set { IsSet store.now.world.model (own_of plan.now).set }
    ensures fit { AllFit store.now.world (own_of plan.now).shape (rows_of held.now) }
{
    data_is_loaded(store.data());
    let _customs = store.customs();
}

/// The body of rows, or of instances of which no row is made.
fn held_body<R: Threads + Sync>(
    rt: &R,
    alloc: Global,
    store: &Data,
    typed: &Typed,
    held: &Held,
    workers: u32,
) -> Result<Vec<u8>, RunRefused>
    requires set { IsSet store.now.model typed.now.set }
    requires rows { AllFit store.now typed.now.shape (rows_of held.now) }
    requires some { 0 < workers }
    ensures ok { IfOk result (λ b. body store.now (set_name store.now.model typed.now.set) typed.now.shape (rows_of held.now) ≡ Some b.items) }
    ensures range { result ≡ Err RunRefused.Range → body store.now (set_name store.now.model typed.now.set) typed.now.shape (rows_of held.now) ≡ None }
{
    match held {
        Held::Set(set, n) => {
            let frame = Frame::of_first(alloc, *set, *n)?;
            render_frame(rt, alloc, store, typed.set, &typed.shape, &frame, workers)
        }
        Held::Frame(frame) => {
            render_frame(rt, alloc, store, typed.set, &typed.shape, frame, workers)
        }
        Held::Rows(rows) => {
            render_in_parts(
                rt,
                alloc,
                store,
                typed.set,
                &typed.shape,
                rows.as_slice(),
                workers,
            )
        }
    }
}

/// The body of what a plan gives. No row is made of instances that stand in a frame.
fn body_of<R: Threads + Sync, G: Gate, L: Ledger>(
    rt: &R,
    alloc: Global,
    store: &Store,
    plan: &Plan,
    workers: u32,
    gate: &G,
    steps: &mut Steps<L>,
) -> Result<Vec<u8>, RunRefused>
    requires set { IsSet store.now.world.model (written_of plan.now).set }
    requires plan { IsPlan store.now.world.model (readings store.now.customs) plan.now }
    requires ready { All (IsReadyAt store.now.world store.now.hiers) (hierarchies (pipe_of (written_of plan.now).pipe)) }
    ensures ok { let t = written_of plan.now in
        IfOk result (λ b. spec.answer_body store.now.world (readings store.now.customs) t.set (pipe_of t.pipe) t.shape ≡ Some b.items) }
    ensures range { let t = written_of plan.now in
        result ≡ Err RunRefused.Range → spec.answer_body store.now.world (readings store.now.customs) t.set (pipe_of t.pipe) t.shape ≡ None }
    ensures steps { let t = own_of plan.now in
        steps.new ≤ steps.old + total_cost store.now.world (readings store.now.customs) t.set (pipe_of t.pipe) }
    ensures grown { steps.old ≤ steps.new }
{
    let workers = workers.min(MOST).max(1);
    let held = run_unmade(
        rt,
        alloc,
        store.data(),
        store.customs(),
        store.hiers(),
        plan,
        workers,
        gate,
        steps,
    )?;
    rows_fit(store, plan, &held);
    let typed = plan.typed();
    held_body(rt, alloc, store.data(), typed, &held, workers)
}

/// The response to a request whose run came to this body, or to none.
fn run_response(alloc: Global, body: Result<Vec<u8>, RunRefused>) -> Result<Output, AllocError>
    ensures { IfOk result (λ r. spec.IsOfBody body (bytes_of r)) }
{
    match body {
        Ok(body) => answered(alloc, body),
        Err(RunRefused::Range) => Ok(Output::Made(past_range(alloc)?)),
        Err(RunRefused::Memory) => Err(AllocError),
    }
}

/// The response to a request that names a cyclic hierarchy with this node.
fn cycle_response(alloc: Global, store: &Store, node: EntityRef) -> Result<Output, AllocError>
    requires { IsSet store.now.world.model node.set }
    ensures { IfOk result (λ r. bytes_of r ≡ refused (Cycle (plain_text (key store.now.world node)))) }
{
    let node = identifier(alloc, store.data(), node)?;
    Ok(Output::Made(cyclic(alloc, node.as_str())?))
}

/// The response to a request for the plan of a typed pipeline.
fn plan_response(alloc: Global, store: &Store, typed: &Typed) -> Result<Output, AllocError>
    requires set { IsSet store.now.world.model typed.now.set }
    requires typing { IsTyping store.now.world.model (readings store.now.customs) typed.now }
    ensures { IfOk result (λ r. (q : tree.Pipe) × IsPlanOf store.now.world.model (readings store.now.customs) (shape_of_set store.now.world.model typed.now.set) (pipe_of typed.now.pipe) q × (bytes_of r ≡ answered (plan_body (printing.print q)))) }
{
    let plan = optimise(alloc, store.model(), store.customs(), typed)?;
    let text = print(alloc, plan.pipe())?;
    explained(alloc, text.as_str())
}

/// The response to a request that has this typing.
fn typed_response<R: Threads + Sync, G: Gate, L: Ledger>(
    rt: &R,
    alloc: Global,
    store: &Store,
    is_optimised: bool,
    request: &Request,
    typed: Typed,
    workers: u32,
    gate: &G,
    steps: &mut Steps<L>,
) -> Result<Output, AllocError>
    requires set { IsSet store.now.world.model typed.set }
    requires typing { IsTyping store.now.world.model (readings store.now.customs) typed }
    requires pipe { pipe_of typed.pipe ≡ pipe_of request.now.pipe }
    requires typed { IsTyped store.now.world (readings store.now.customs) (asked_of request.now) typed.set typed.shape }
    ensures response { IfOk result (λ r. IsResponse store.now.world (readings store.now.customs) (asked_of request.now) (bytes_of r)) }
    ensures steps { (n : ℕ) → BoundsRequest is_optimised store.now.world (readings store.now.customs) (asked_of request.now) n → steps.new ≤ steps.old + n }
    ensures grown { steps.old ≤ steps.new }
{
    if request.explain {
        return plan_response(alloc, store, &typed);
    }
    if let Some(node) = first_cycle(store.data(), store.hiers(), &typed.pipe) {
        return cycle_response(alloc, store, node);
    }
    let plan = plan_for(alloc, store, typed, is_optimised)?;
    let body = body_of(rt, alloc, store, &plan, workers, gate, steps);
    run_response(alloc, body)
}

/// The response to a request.
fn response_to<R: Threads + Sync, G: Gate, L: Ledger>(
    rt: &R,
    alloc: Global,
    store: &Store,
    is_optimised: bool,
    request: &Request,
    workers: u32,
    gate: &G,
    steps: &mut Steps<L>,
) -> Result<Output, AllocError>
    ensures response { IfOk result (λ r. IsResponse store.now.world (readings store.now.customs) (asked_of request.now) (bytes_of r)) }
    ensures steps { (n : ℕ) → BoundsRequest is_optimised store.now.world (readings store.now.customs) (asked_of request.now) n → steps.new ≤ steps.old + n }
    ensures grown { steps.old ≤ steps.new }
{
    let set_name = request.set.text();
    let Some(set) = store.model().set_named(set_name) else {
        return Ok(Output::Made(not_found(alloc, set_name)?));
    };
    match type_pipe(alloc, store.model(), store.customs(), set, &request.pipe) {
        Ok(typed) => typed_response(
            rt,
            alloc,
            store,
            is_optimised,
            request,
            typed,
            workers,
            gate,
            steps,
        ),
        Err(TypeRefused::At(k)) => Ok(Output::Made(untyped(alloc, k)?)),
        Err(TypeRefused::Memory) => Err(AllocError),
    }
}

/// The response to a line that is no request from this step on.
fn no_request(alloc: Global, step: u32) -> Result<Output, AllocError>
    ensures { IfOk result (λ r. bytes_of r ≡ refused (Syntax step)) }
{
    Ok(Output::Made(no_pipeline(alloc, step)?))
}

/// The reply to a line that is not empty, whose pipeline is rewritten before it runs or runs as it was written, by so many workers.
pub fn reply_to<R: Threads + Sync, G: Gate, L: Ledger>(
    rt: &R,
    alloc: Global,
    store: &Store,
    is_optimised: bool,
    line: &[u8],
    workers: u32,
    gate: &G,
    steps: &mut Steps<L>,
) -> Output
    ensures reply { IsReply store.now.world (readings store.now.customs) line.now (bytes_of result) }
    ensures steps { (n : ℕ) → BoundsLine is_optimised store.now.world (readings store.now.customs) line.now n → steps.new ≤ steps.old + n }
    ensures grown { steps.old ≤ steps.new }
{
    match read_request(alloc, line) {
        Ok(request) => made(response_to(
            rt,
            alloc,
            store,
            is_optimised,
            &request,
            workers,
            gate,
            steps,
        )),
        Err(GrammarRefused::TooLong) => Output::Constant(too_long()),
        Err(GrammarRefused::Syntax(k)) => made(no_request(alloc, k)),
        Err(GrammarRefused::Memory) => Output::Constant(out_of_memory()),
    }
}
