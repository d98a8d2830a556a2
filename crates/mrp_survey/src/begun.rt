//! A survey that is begun.

use crate::finding::Finding;
use crate::rule::Beside;
use crate::surveyed::Survey;
use mrp_tables::Version;
use std::marker::Model;

/// What is wrong with the calendar, the items and the work centres, and what other tables look at.
#[derive(Drop)]
pub struct Begun {
    pub(crate) findings: Vec<Finding>,
    pub(crate) version: Option<Version>,
    pub(crate) beside: Beside,
}

impl Model for Begun {
    ghost use Rattle.mrp_survey.specs.Surveyed.{SurveyBegun};

    ghost Value = { SurveyBegun };

    ghost view = { λ b. record { findings = b.findings.items; version = b.version; beside = b.beside } };
}

/// How far a survey is.
#[derive(Drop)]
pub enum Progress {
    /// The tables behind the work centres are not surveyed yet.
    Begun(Begun),
    /// All is surveyed.
    Done(Survey),
}
