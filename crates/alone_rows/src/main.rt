//! Prints how whole runs with one fetcher end: what each found, what it wrote, and what its fetcher
//! counted; and what the calls of traversals answer that are made one by one. `stdout` holds what has
//! to come.
#![tactic(auto)]

mod calls;
mod runs;
mod shown;
mod stepped;
mod webs;

use rdf_terms::Memory;
use std::alloc::Global;
use std::io;
use std::process::ExitCode;

/// A run, or calls, that a part of the text shows.
#[derive(Clone, Copy, Drop)]
enum Scene {
    Redirects,
    FailsAtOnce,
    FailsAtTheEnd,
    NeverAnswers,
    FailsToConnect,
    RefusesAScheme,
    StopsAtTheLimit,
    OneDocument,
    OneDocumentAsCommands,
    Redirect,
    RedirectAsCommands,
    Halted,
    Failed,
}

const SCENES: [Scene; 13] = [
    Scene::Redirects,
    Scene::FailsAtOnce,
    Scene::FailsAtTheEnd,
    Scene::NeverAnswers,
    Scene::FailsToConnect,
    Scene::RefusesAScheme,
    Scene::StopsAtTheLimit,
    Scene::OneDocument,
    Scene::OneDocumentAsCommands,
    Scene::Redirect,
    Scene::RedirectAsCommands,
    Scene::Halted,
    Scene::Failed,
];

fn scene_text(alloc: Global, scene: Scene) -> Result<String, Memory> {
    match scene {
        Scene::Redirects => runs::redirects(alloc),
        Scene::FailsAtOnce => runs::fails_at_once(alloc),
        Scene::FailsAtTheEnd => runs::fails_at_the_end(alloc),
        Scene::NeverAnswers => runs::never_answers(alloc),
        Scene::FailsToConnect => runs::fails_to_connect(alloc),
        Scene::RefusesAScheme => runs::refuses_a_scheme(alloc),
        Scene::StopsAtTheLimit => runs::stops_at_the_limit(alloc),
        Scene::OneDocument => stepped::one_document(alloc),
        Scene::OneDocumentAsCommands => stepped::one_document_as_commands(alloc),
        Scene::Redirect => stepped::redirect(alloc),
        Scene::RedirectAsCommands => stepped::redirect_as_commands(alloc),
        Scene::Halted => stepped::halted(alloc),
        Scene::Failed => stepped::failed(alloc),
    }
}

fn main(rt: HostRuntime) -> io::Result<ExitCode> {
    for scene in &SCENES {
        match scene_text(rt.alloc(), *scene) {
            Ok(text) => println!(rt; "{text}")?,
            Err(Memory) => return Ok(ExitCode::from(10)),
        }
    }
    Ok(ExitCode::from(0))
}
