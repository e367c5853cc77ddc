//! From what the words ask for to the answer before its report.
ghost use Rattle.std.specs.Prelude.{◌≡◌, ◌<◌, ◌≤◌, ◌+◌, Some, None, IfOk, Err, ℕ, length};
ghost use Rattle.link_uri.specs.Links.{AreLinks};
ghost use Rattle.site_core.specs.Text.{SiteText, site_limit};
ghost use Rattle.site_core.specs.Places.{SiteBad};
ghost use Rattle.command_words.specs.Ready.{IsReady, IsReadySettings};
ghost use Rattle.answer_core.specs.Task.{Asks, IsTaskOf, OverGenerated, OverInput, asked_alone, asked_of, generated_settings};
ghost use Rattle.answer_core.specs.Headline.{HasRead, IsWebOfGenerated, StatusEvidence, WebRead};
ghost use Rattle.answer_core.specs.Running.{BeforeReport, BytesRead};

use crate::Status;
use crate::generated::settings_of;
use crate::querying::answer_query;
use crate::running::{Answer, without_record};
use command_words::{Command, Settings};
use outer_ports::{Sink, Source, SourceFault, read_all};
use rdf_terms::ByteBuf;
use site_core::{Site, SiteFault, make_site, read_site};
use std::alloc::Global;

/// The most bytes of an input.
const INPUT_LIMIT: usize = 67_108_864;

/// The site that the bytes are; the bytes are let go.
fn site_of(alloc: Global, bytes: ByteBuf) -> Result<Site, SiteFault>
    ensures site { IfOk result (λ site. SiteText site bytes) }
    ensures bad { (at : ℕ) → result ≡ Err (SiteFault.Bad at) → SiteBad bytes at }
{
    read_site(alloc, bytes.as_slice())
}

/// Runs what is asked for over the site that the bytes are.
fn answer_bytes<S: Sink>(alloc: Global, settings: Settings, bytes: ByteBuf, out: S) -> Answer<S>
    requires valid_links { AreLinks settings.seeds }
    requires tries { 0 < settings.fetch.tries }
    requires most { length bytes ≤ site_limit + 1 }
    ensures { StatusEvidence (record { bytes = S.content; faults = S.faults }) (IsTaskOf settings)
        (BeforeReport (BytesRead settings bytes)) result.trace out result.out result.status }
{
    match site_of(alloc, bytes) {
        Ok(site) => answer_query(alloc, settings, site, out),
        Err(SiteFault::Bad { at }) => without_record(Status::Site { at }, out),
        Err(SiteFault::Memory) => without_record(Status::Memory, out),
    }
}

/// Reads the input whole, or as much of it as shows that it is too long, and runs what is asked for.
fn answer_input<I: Source, S: Sink>(
    alloc: Global,
    settings: Settings,
    input: &mut I,
    out: S,
) -> Answer<S>
    requires valid_links { AreLinks settings.seeds }
    requires tries { 0 < settings.fetch.tries }
    ensures { StatusEvidence (record { bytes = S.content; faults = S.faults }) (Asks (OverInput settings))
        (BeforeReport (HasRead (record { bytes = I.left; faults = I.faults }) I.ends (OverInput settings) input.old input.new))
        result.trace out result.out result.status }
{
    match read_all(alloc, input, INPUT_LIMIT + 1) {
        Ok(bytes) => answer_bytes(alloc, settings, bytes, out),
        Err(SourceFault::Failed) => without_record(Status::Input, out),
        Err(SourceFault::Memory) => without_record(Status::Memory, out),
    }
}

/// Runs what is asked for over the site that is made of the number.
fn answer_generated<S: Sink>(alloc: Global, n: u64, workers: u16, out: S) -> Answer<S>
    requires range { (1 ≤ n) × (n ≤ 2000) }
    ensures { StatusEvidence (record { bytes = S.content; faults = S.faults }) (Asks (OverGenerated n (generated_settings workers)))
        (BeforeReport (WebRead (generated_settings workers) (IsWebOfGenerated n))) result.trace out result.out result.status }
{
    let Ok(settings) = settings_of(alloc, workers) else {
        return without_record(Status::Memory, out);
    };
    match make_site(alloc, n, 0) {
        Ok(site) => answer_query(alloc, settings, site, out),
        Err(_) => without_record(Status::Memory, out),
    }
}

/// Answers a command. A generated site leaves the input unread, and so does a command that isn't built.
pub(crate) fn answer_command<I: Source, S: Sink>(
    alloc: Global,
    command: Command,
    input: &mut I,
    out: S,
) -> Answer<S>
    requires ready { IsReady command }
    ensures { StatusEvidence (record { bytes = S.content; faults = S.faults }) (Asks (asked_of (Some command)))
        (BeforeReport (HasRead (record { bytes = I.left; faults = I.faults }) I.ends (asked_of (Some command)) input.old input.new))
        result.trace out result.out result.status }
{
    match command {
        Command::Site(settings) => answer_input(alloc, settings, input, out),
        Command::Web(_) => without_record(Status::NotBuilt, out),
        Command::Generated { n, workers } => answer_generated(alloc, n, workers, out),
    }
}

/// Answers the settings of a site where they name no workers, and refuses others.
fn answer_unaided<I: Source, S: Sink>(
    alloc: Global,
    settings: Settings,
    input: &mut I,
    out: S,
) -> Answer<S>
    requires ready { IsReadySettings settings }
    ensures { StatusEvidence (record { bytes = S.content; faults = S.faults }) (Asks (asked_alone (Some (Command.Site settings))))
        (BeforeReport (HasRead (record { bytes = I.left; faults = I.faults }) I.ends (asked_alone (Some (Command.Site settings))) input.old input.new))
        result.trace out result.out result.status }
{
    if settings.workers == 0 {
        answer_input(alloc, settings, input, out)
    } else {
        without_record(Status::Usage, out)
    }
}

/// Answers the command of a site without workers, and refuses others.
pub(crate) fn answer_command_alone<I: Source, S: Sink>(
    alloc: Global,
    command: Command,
    input: &mut I,
    out: S,
) -> Answer<S>
    requires ready { IsReady command }
    ensures { StatusEvidence (record { bytes = S.content; faults = S.faults }) (Asks (asked_alone (Some command)))
        (BeforeReport (HasRead (record { bytes = I.left; faults = I.faults }) I.ends (asked_alone (Some command)) input.old input.new))
        result.trace out result.out result.status }
{
    match command {
        Command::Site(settings) => answer_unaided(alloc, settings, input, out),
        _ => without_record(Status::Usage, out),
    }
}
